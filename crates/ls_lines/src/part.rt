// The parts of forms.

use crate::{Keyword, Kind};

/// A part of a form: the word itself, one word of a kind, or any number of words of a kind.
#[derive(Clone, Copy)]
pub enum Part {
    Fixed(Keyword),
    One(Kind),
    Many(Kind),
}

pub(crate) const NAME: Part = Part::One(Kind::Name);

pub(crate) const NAMES: Part = Part::Many(Kind::Name);

pub(crate) const ITEM: Part = Part::One(Kind::Item);

pub(crate) const ITEMS: Part = Part::Many(Kind::Item);

pub(crate) const FILE: Part = Part::One(Kind::File);

pub(crate) const COUNT: Part = Part::One(Kind::Count);

pub(crate) const NUMBER: Part = Part::One(Kind::Number);

pub(crate) const CURSOR: Part = Part::One(Kind::Cursor);

pub(crate) const RIGHT: Part = Part::One(Kind::Right);

pub(crate) const START: Part = Part::Fixed(Keyword::Start);

pub(crate) const SKILLS: Part = Part::Fixed(Keyword::Skills);

pub(crate) const ANY: Part = Part::Fixed(Keyword::Any);

pub(crate) const ALL: Part = Part::Fixed(Keyword::All);

pub(crate) const MESH: Part = Part::Fixed(Keyword::Mesh);

pub(crate) const AFTER: Part = Part::Fixed(Keyword::After);

pub(crate) const COLON: Part = Part::Fixed(Keyword::Colon);

pub(crate) const BAR: Part = Part::Fixed(Keyword::Bar);
