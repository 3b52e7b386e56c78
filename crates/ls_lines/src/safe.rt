// Commands of the safe interview.
ghost use Rattle.std.specs.Prelude.{◌≡◌, All, IfOk, map};
ghost use Rattle.std.specs.Str.{IsAscii};
ghost use Rattle.ls_lines.specs.Forms.{safe_parts, safe_command, safe_spelled_as};
ghost use Rattle.ls_lines.specs.Operands.{filling};

use crate::cut::Cut;
use crate::operand::Operand::{Count, Many, One};
use crate::operand::{Operands, spell_none, spell_one, spell_two};
use crate::part::{AFTER, COLON, COUNT, CURSOR, ITEM, ITEMS};
use crate::{Keyword, Part, Word, WordList};
use std::alloc::AllocError;

/// A command of the safe interview, in which a Yes is applied only where a learning space remains,
/// and waits otherwise.
#[derive(Drop)]
pub enum SafeCommand {
    Open,
    /// The expert's Yes: a pupil who fails the named items fails `item` too.
    Answer { names: WordList, item: Word },
    /// The answers, and which of them are applied.
    List,
    /// A page of at most `count` states: the first ones, or those after a cursor.
    States { count: u32, after: Option<Word> },
    Close,
}

/// A form of a command of the safe interview.
#[derive(Clone, Copy)]
pub enum SafeForm {
    Open,
    Answer,
    List,
    States,
    StatesAfter,
    Close,
}

impl SafeForm {
    // The parts of the form's lines.
    pub(crate) fn parts(self) -> &'static [Part]
        ensures { result.now ≡ safe_parts self }
    {
        match self {
            Self::Open => &[Part::Fixed(Keyword::SafeOpen)],
            Self::Answer => &[Part::Fixed(Keyword::Safe), ITEMS, COLON, ITEM],
            Self::List => &[Part::Fixed(Keyword::SafeList)],
            Self::States => &[Part::Fixed(Keyword::SafeStates), COUNT],
            Self::StatesAfter => &[Part::Fixed(Keyword::SafeStates), COUNT, AFTER, CURSOR],
            Self::Close => &[Part::Fixed(Keyword::SafeClose)],
        }
    }

    // The command with the words at the parts.
    pub(crate) fn command(self, cut: &Cut) -> Result<SafeCommand, AllocError>
        requires { All (λ ws. All IsAscii ws) cut.now }
        ensures { IfOk result (λ c. c ≡ safe_command self cut.now) }
    {
        Ok(match self {
            Self::Open => SafeCommand::Open,
            Self::Answer => {
                let (names, item) = cut.all_and_one(1, 3)?;
                SafeCommand::Answer { names, item }
            }
            Self::List => SafeCommand::List,
            Self::States => states(cut.count(1), None),
            Self::StatesAfter => states(cut.count(1), Some(cut.one(3)?)),
            Self::Close => SafeCommand::Close,
        })
    }
}

impl SafeCommand {
    // The form of the command, and what stands at those of its parts that are no fixed words.
    pub(crate) fn spelled_as(&self) -> (SafeForm, Operands<'_>)
        ensures { (result.0, map filling result.1.items) ≡ safe_spelled_as self.now }
    {
        match self {
            Self::Open => spell_none(SafeForm::Open),
            Self::Answer { names, item } => spell_two(SafeForm::Answer, Many(names), One(item)),
            Self::List => spell_none(SafeForm::List),
            Self::States { count, after } => match after {
                None => spell_one(SafeForm::States, Count(*count)),
                Some(cursor) => spell_two(SafeForm::StatesAfter, Count(*count), One(cursor)),
            },
            Self::Close => spell_none(SafeForm::Close),
        }
    }
}

// A page of states of the safe interview.
fn states(count: u32, after: Option<Word>) -> SafeCommand
    ensures { result ≡ SafeCommand.States count after }
{
    SafeCommand::States { count, after }
}
