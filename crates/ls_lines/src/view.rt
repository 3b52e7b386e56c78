// Commands that show something of the interview.
ghost use Rattle.std.specs.Prelude.{◌≡◌, All, IfOk, map};
ghost use Rattle.std.specs.Str.{IsAscii};
ghost use Rattle.ls_lines.specs.Forms.{view_parts, view_command, view_spelled_as};
ghost use Rattle.ls_lines.specs.Operands.{filling};

use crate::cut::Cut;
use crate::operand::Operand::{Count, Many, One};
use crate::operand::{Operands, spell_none, spell_one, spell_three, spell_two};
use crate::part::{AFTER, BAR, COLON, COUNT, CURSOR, ITEM, ITEMS};
use crate::{Keyword, MOST_COUNTED, Part, Word, WordList};
use std::alloc::AllocError;

/// A command that shows something of the interview.
#[derive(Drop)]
pub enum ViewCommand {
    Known {
        names: WordList,
        item: Word,
    },
    Ask,
    /// A page of at most `count` states: the first ones, or those after a cursor.
    States {
        count: u32,
        after: Option<Word>,
    },
    Base,
    Surmise,
    Learning,
    /// A page of at most `count` states of the projection on the named items.
    Project {
        count: u32,
        after: Option<Word>,
        names: WordList,
    },
    ProjectBase {
        names: WordList,
    },
    Fringes {
        names: WordList,
    },
    StateOf {
        inner: WordList,
        outer: WordList,
    },
    /// A page of at most `count` learning paths: the first ones, or those after a path.
    Paths {
        count: u32,
        after: Option<WordList>,
    },
    SkillMap,
    Relation,
}

/// A form of a command that shows something of the interview.
#[derive(Clone, Copy)]
pub enum ViewForm {
    Known,
    Ask,
    States,
    StatesUpTo,
    StatesAfter,
    Base,
    Surmise,
    Learning,
    Project,
    ProjectAfter,
    ProjectBase,
    Fringes,
    StateOf,
    Paths,
    PathsAfter,
    SkillMap,
    Relation,
}

impl ViewForm {
    // The parts of the form's lines.
    pub(crate) fn parts(self) -> &'static [Part]
        ensures { result.now ≡ view_parts self }
    {
        match self {
            Self::Known => &[Part::Fixed(Keyword::Known), ITEMS, COLON, ITEM],
            Self::Ask => &[Part::Fixed(Keyword::Ask)],
            Self::States => &[Part::Fixed(Keyword::States)],
            Self::StatesUpTo => &[Part::Fixed(Keyword::States), COUNT],
            Self::StatesAfter => &[Part::Fixed(Keyword::States), COUNT, AFTER, CURSOR],
            Self::Base => &[Part::Fixed(Keyword::Base)],
            Self::Surmise => &[Part::Fixed(Keyword::Surmise)],
            Self::Learning => &[Part::Fixed(Keyword::Learning)],
            Self::Project => &[Part::Fixed(Keyword::Project), COUNT, COLON, ITEMS],
            Self::ProjectAfter => &[
                Part::Fixed(Keyword::Project),
                COUNT,
                AFTER,
                CURSOR,
                COLON,
                ITEMS,
            ],
            Self::ProjectBase => &[Part::Fixed(Keyword::ProjectBase), ITEMS],
            Self::Fringes => &[Part::Fixed(Keyword::Fringes), ITEMS],
            Self::StateOf => &[Part::Fixed(Keyword::StateOf), ITEMS, BAR, ITEMS],
            Self::Paths => &[Part::Fixed(Keyword::Paths), COUNT],
            Self::PathsAfter => &[Part::Fixed(Keyword::Paths), COUNT, AFTER, ITEMS],
            Self::SkillMap => &[Part::Fixed(Keyword::SkillMap)],
            Self::Relation => &[Part::Fixed(Keyword::Relation)],
        }
    }

    // The command with the words at the parts.
    pub(crate) fn command(self, cut: &Cut) -> Result<ViewCommand, AllocError>
        requires { All (λ ws. All IsAscii ws) cut.now }
        ensures { IfOk result (λ c. c ≡ view_command self cut.now) }
    {
        Ok(match self {
            Self::Known => {
                let (names, item) = cut.all_and_one(1, 3)?;
                ViewCommand::Known { names, item }
            }
            Self::Ask => ViewCommand::Ask,
            Self::States => states(MOST_COUNTED, None),
            Self::StatesUpTo => states(cut.count(1), None),
            Self::StatesAfter => states(cut.count(1), Some(cut.one(3)?)),
            Self::Base => ViewCommand::Base,
            Self::Surmise => ViewCommand::Surmise,
            Self::Learning => ViewCommand::Learning,
            Self::Project => {
                let names = cut.all(3)?;
                project(cut.count(1), None, names)
            }
            Self::ProjectAfter => {
                let (names, cursor) = cut.all_and_one(5, 3)?;
                project(cut.count(1), Some(cursor), names)
            }
            Self::ProjectBase => ViewCommand::ProjectBase { names: cut.all(1)? },
            Self::Fringes => ViewCommand::Fringes { names: cut.all(1)? },
            Self::StateOf => state_of(cut)?,
            Self::Paths => paths(cut.count(1), None),
            Self::PathsAfter => paths(cut.count(1), Some(cut.all(3)?)),
            Self::SkillMap => ViewCommand::SkillMap,
            Self::Relation => ViewCommand::Relation,
        })
    }
}

impl ViewCommand {
    // The form of the command, and what stands at those of its parts that are no fixed words.
    pub(crate) fn spelled_as(&self) -> (ViewForm, Operands<'_>)
        ensures { (result.0, map filling result.1.items) ≡ view_spelled_as self.now }
    {
        match self {
            Self::Known { names, item } => spell_two(ViewForm::Known, Many(names), One(item)),
            Self::Ask => spell_none(ViewForm::Ask),
            Self::States { count, after } => match after {
                None => spell_one(ViewForm::StatesUpTo, Count(*count)),
                Some(cursor) => spell_two(ViewForm::StatesAfter, Count(*count), One(cursor)),
            },
            Self::Base => spell_none(ViewForm::Base),
            Self::Surmise => spell_none(ViewForm::Surmise),
            Self::Learning => spell_none(ViewForm::Learning),
            Self::Project {
                count,
                after,
                names,
            } => match after {
                None => spell_two(ViewForm::Project, Count(*count), Many(names)),
                Some(cursor) => spell_three(
                    ViewForm::ProjectAfter,
                    Count(*count),
                    One(cursor),
                    Many(names),
                ),
            },
            Self::ProjectBase { names } => spell_one(ViewForm::ProjectBase, Many(names)),
            Self::Fringes { names } => spell_one(ViewForm::Fringes, Many(names)),
            Self::StateOf { inner, outer } => spell_two(
                ViewForm::StateOf,
                Many(inner),
                Many(outer),
            ),
            Self::Paths { count, after } => match after {
                None => spell_one(ViewForm::Paths, Count(*count)),
                Some(path) => spell_two(ViewForm::PathsAfter, Count(*count), Many(path)),
            },
            Self::SkillMap => spell_none(ViewForm::SkillMap),
            Self::Relation => spell_none(ViewForm::Relation),
        }
    }
}

// A page of states.
fn states(count: u32, after: Option<Word>) -> ViewCommand
    ensures { result ≡ ViewCommand.States count after }
{
    ViewCommand::States { count, after }
}

// A page of states of a projection.
fn project(count: u32, after: Option<Word>, names: WordList) -> ViewCommand
    ensures { result ≡ ViewCommand.Project count after names }
{
    ViewCommand::Project {
        count,
        after,
        names,
    }
}

// A page of learning paths.
fn paths(count: u32, after: Option<WordList>) -> ViewCommand
    ensures { result ≡ ViewCommand.Paths count after }
{
    ViewCommand::Paths { count, after }
}

// The state of two fringes.
fn state_of(cut: &Cut) -> Result<ViewCommand, AllocError>
    requires { All (λ ws. All IsAscii ws) cut.now }
    ensures { IfOk result (λ c. c ≡ view_command ViewForm.StateOf cut.now) }
{
    let inner = cut.all(1)?;
    let outer = cut.all(3)?;
    Ok(ViewCommand::StateOf { inner, outer })
}
