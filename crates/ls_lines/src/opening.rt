// Commands that open a session.
ghost use Rattle.std.specs.Prelude.{◌≡◌, All, IfOk, map};
ghost use Rattle.std.specs.Str.{IsAscii};
ghost use Rattle.ls_lines.specs.Forms.{opening_parts, opening_command, opening_spelled_as};
ghost use Rattle.ls_lines.specs.Operands.{filling};

use crate::cut::Cut;
use crate::operand::Operand::{Many, One};
use crate::operand::{Operands, spell_one};
use crate::part::{FILE, NAMES};
use crate::{Keyword, Part, Word, WordList};
use std::alloc::AllocError;

/// A command that opens a session: it begins one with items, or takes one up from a file. It needs
/// no domain.
#[derive(Drop)]
pub enum OpeningCommand {
    Items { names: WordList },
    LoadItems { file: Word },
    Reopen { file: Word },
}

/// A form of a command that opens a session.
#[derive(Clone, Copy)]
pub enum OpeningForm {
    Items,
    LoadItems,
    Reopen,
}

impl OpeningForm {
    // The parts of the form's lines.
    pub(crate) fn parts(self) -> &'static [Part]
        ensures { result.now ≡ opening_parts self }
    {
        match self {
            Self::Items => &[Part::Fixed(Keyword::Items), NAMES],
            Self::LoadItems => &[Part::Fixed(Keyword::LoadItems), FILE],
            Self::Reopen => &[Part::Fixed(Keyword::Open), FILE],
        }
    }

    // The command with the words at the parts.
    pub(crate) fn command(self, cut: &Cut) -> Result<OpeningCommand, AllocError>
        requires { All (λ ws. All IsAscii ws) cut.now }
        ensures { IfOk result (λ c. c ≡ opening_command self cut.now) }
    {
        Ok(match self {
            Self::Items => OpeningCommand::Items { names: cut.all(1)? },
            Self::LoadItems => OpeningCommand::LoadItems { file: cut.one(1)? },
            Self::Reopen => OpeningCommand::Reopen { file: cut.one(1)? },
        })
    }
}

impl OpeningCommand {
    // The form of the command, and what stands at those of its parts that are no fixed words.
    pub(crate) fn spelled_as(&self) -> (OpeningForm, Operands<'_>)
        ensures { (result.0, map filling result.1.items) ≡ opening_spelled_as self.now }
    {
        match self {
            Self::Items { names } => spell_one(OpeningForm::Items, Many(names)),
            Self::LoadItems { file } => spell_one(OpeningForm::LoadItems, One(file)),
            Self::Reopen { file } => spell_one(OpeningForm::Reopen, One(file)),
        }
    }
}
