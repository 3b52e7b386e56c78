// Commands that change the interview.
ghost use Rattle.std.specs.Prelude.{◌≡◌, All, IfOk, map};
ghost use Rattle.std.specs.Str.{IsAscii};
ghost use Rattle.ls_lines.specs.Forms.{edit_parts, edit_command, edit_spelled_as};
ghost use Rattle.ls_lines.specs.Operands.{filling};

use crate::cut::Cut;
use crate::operand::Operand::{Count, Many, Number, One};
use crate::operand::{Operands, spell_one, spell_two};
use crate::part::{COLON, ITEM, ITEMS, NUMBER};
use crate::{Keyword, Part, Word, WordList};
use std::alloc::AllocError;

/// A command that changes the interview.
#[derive(Drop)]
pub enum EditCommand {
    Blocks { size: u32 },
    Yes { names: WordList, item: Word },
    No { names: WordList, item: Word },
    Retract { number: u64 },
}

/// A form of a command that changes the interview.
#[derive(Clone, Copy)]
pub enum EditForm {
    Blocks,
    Yes,
    No,
    Retract,
}

impl EditForm {
    // The parts of the form's lines.
    pub(crate) fn parts(self) -> &'static [Part]
        ensures { result.now ≡ edit_parts self }
    {
        match self {
            Self::Blocks => &[Part::Fixed(Keyword::Blocks), NUMBER],
            Self::Yes => &[Part::Fixed(Keyword::Yes), ITEMS, COLON, ITEM],
            Self::No => &[Part::Fixed(Keyword::No), ITEMS, COLON, ITEM],
            Self::Retract => &[Part::Fixed(Keyword::Retract), NUMBER],
        }
    }

    // The command with the words at the parts.
    pub(crate) fn command(self, cut: &Cut) -> Result<EditCommand, AllocError>
        requires { All (λ ws. All IsAscii ws) cut.now }
        ensures { IfOk result (λ c. c ≡ edit_command self cut.now) }
    {
        Ok(match self {
            Self::Blocks => EditCommand::Blocks {
                size: cut.number(1),
            },
            Self::Yes => {
                let (names, item) = cut.all_and_one(1, 3)?;
                EditCommand::Yes { names, item }
            }
            Self::No => {
                let (names, item) = cut.all_and_one(1, 3)?;
                EditCommand::No { names, item }
            }
            Self::Retract => EditCommand::Retract {
                number: u64::from(cut.number(1)),
            },
        })
    }
}

impl EditCommand {
    // The form of the command, and what stands at those of its parts that are no fixed words.
    pub(crate) fn spelled_as(&self) -> (EditForm, Operands<'_>)
        ensures { (result.0, map filling result.1.items) ≡ edit_spelled_as self.now }
    {
        match self {
            Self::Blocks { size } => spell_one(EditForm::Blocks, Count(*size)),
            Self::Yes { names, item } => spell_two(EditForm::Yes, Many(names), One(item)),
            Self::No { names, item } => spell_two(EditForm::No, Many(names), One(item)),
            Self::Retract { number } => spell_one(EditForm::Retract, Number(*number)),
        }
    }
}
