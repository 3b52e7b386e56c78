// Commands that assess pupils.
ghost use Rattle.std.specs.Prelude.{◌≡◌, All, IfOk, map};
ghost use Rattle.std.specs.Str.{IsAscii};
ghost use Rattle.ls_lines.specs.Forms.{pupil_parts, pupil_command, pupil_spelled_as, pupil_name};
ghost use Rattle.ls_lines.specs.Operands.{filling};

use crate::cut::Cut;
use crate::operand::Operand::{One, Right};
use crate::operand::{Operands, spell_one, spell_three};
use crate::part::{ITEM, NAME, RIGHT};
use crate::{Keyword, Part, Word};
use std::alloc::AllocError;

/// A command that assesses a pupil.
#[derive(Drop)]
pub enum PupilCommand {
    Pupil { name: Word },
    Question { name: Word },
    Reply { name: Word, item: Word, right: bool },
    Report { name: Word },
    Close { name: Word },
}

/// A form of a command that assesses a pupil.
#[derive(Clone, Copy)]
pub enum PupilForm {
    Pupil,
    Question,
    Reply,
    Report,
    Close,
}

impl PupilForm {
    // The parts of the form's lines.
    pub(crate) fn parts(self) -> &'static [Part]
        ensures { result.now ≡ pupil_parts self }
    {
        match self {
            Self::Pupil => &[Part::Fixed(Keyword::Pupil), NAME],
            Self::Question => &[Part::Fixed(Keyword::Question), NAME],
            Self::Reply => &[Part::Fixed(Keyword::Reply), NAME, ITEM, RIGHT],
            Self::Report => &[Part::Fixed(Keyword::Report), NAME],
            Self::Close => &[Part::Fixed(Keyword::Close), NAME],
        }
    }

    // The command with the words at the parts.
    pub(crate) fn command(self, cut: &Cut) -> Result<PupilCommand, AllocError>
        requires { All (λ ws. All IsAscii ws) cut.now }
        ensures { IfOk result (λ c. c ≡ pupil_command self cut.now) }
    {
        Ok(match self {
            Self::Pupil => PupilCommand::Pupil { name: cut.one(1)? },
            Self::Question => PupilCommand::Question { name: cut.one(1)? },
            Self::Reply => {
                let (name, item) = cut.two(1, 2)?;
                let right = cut.is_right(3);
                PupilCommand::Reply { name, item, right }
            }
            Self::Report => PupilCommand::Report { name: cut.one(1)? },
            Self::Close => PupilCommand::Close { name: cut.one(1)? },
        })
    }
}

impl PupilCommand {
    // The form of the command, and what stands at those of its parts that are no fixed words.
    pub(crate) fn spelled_as(&self) -> (PupilForm, Operands<'_>)
        ensures { (result.0, map filling result.1.items) ≡ pupil_spelled_as self.now }
    {
        match self {
            Self::Pupil { name } => spell_one(PupilForm::Pupil, One(name)),
            Self::Question { name } => spell_one(PupilForm::Question, One(name)),
            Self::Reply { name, item, right } => spell_three(
                PupilForm::Reply,
                One(name),
                One(item),
                Right(*right),
            ),
            Self::Report { name } => spell_one(PupilForm::Report, One(name)),
            Self::Close { name } => spell_one(PupilForm::Close, One(name)),
        }
    }

    /// The name of the pupil.
    pub fn name(&self) -> &Word
        ensures { result.now ≡ pupil_name self.now }
    {
        match self {
            Self::Pupil { name }
            | Self::Question { name }
            | Self::Reply { name, .. }
            | Self::Report { name }
            | Self::Close { name } => name,
        }
    }
}
