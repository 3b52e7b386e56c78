// What stands at a part of a form.
ghost use Rattle.std.specs.Prelude.{◌≡◌, ◌≤◌, ◌++◌, ◌∷◌, [], OnOk, length};
ghost use Rattle.ls_lines.specs.Operands.{shown, with_spaces};

use crate::{Word, WordList};
use arrayvec::ArrayVec;
use std::alloc::{AllocError, Global};

// What a command has at a part of its form that is no fixed word.
#[derive(Clone, Copy)]
pub(crate) enum Operand<'a> {
    One(&'a Word),
    Many(&'a WordList),
    Count(u32),
    Number(u64),
    Right(bool),
}

// The most parts of a form that are no fixed words.
const MOST_OPERANDS: usize = 5;

// What a command has at those parts, in order. It takes no memory.
pub(crate) type Operands<'a> = ArrayVec<Operand<'a>, MOST_OPERANDS>;

// What an array has at the places that are free.
impl Default for Operand<'_> {
    fn default() -> Self {
        Operand::Right(false)
    }
}

// The form with the operands, which are put into an array.
pub(crate) fn spell<'a, F>(form: F, operands: &[Operand<'a>]) -> (F, Operands<'a>)
    requires { length operands.now ≤ MOST_OPERANDS }
    ensures form { result.0 ≡ form }
    ensures operands { result.1.items ≡ operands.now }
{
    (form, ArrayVec::try_from(operands).unwrap())
}

// The form with no operand, with one, and with two to four: less is to be proved of these calls
// than of one with a slice.
pub(crate) fn spell_none<'a, F>(form: F) -> (F, Operands<'a>)
    ensures form { result.0 ≡ form }
    ensures operands { result.1.items ≡ [] }
{
    spell(form, &[])
}

pub(crate) fn spell_one<'a, F>(form: F, operand: Operand<'a>) -> (F, Operands<'a>)
    ensures form { result.0 ≡ form }
    ensures operands { result.1.items ≡ operand.entry ∷ [] }
{
    spell(form, &[operand])
}

pub(crate) fn spell_two<'a, F>(
    form: F,
    first: Operand<'a>,
    second: Operand<'a>,
) -> (F, Operands<'a>)
    ensures form { result.0 ≡ form }
    ensures operands { result.1.items ≡ first.entry ∷ second.entry ∷ [] }
{
    spell(form, &[first, second])
}

pub(crate) fn spell_three<'a, F>(
    form: F,
    first: Operand<'a>,
    second: Operand<'a>,
    third: Operand<'a>,
) -> (F, Operands<'a>)
    ensures form { result.0 ≡ form }
    ensures operands { result.1.items ≡ first.entry ∷ second.entry ∷ third.entry ∷ [] }
{
    spell(form, &[first, second, third])
}

pub(crate) fn spell_four<'a, F>(
    form: F,
    first: Operand<'a>,
    second: Operand<'a>,
    third: Operand<'a>,
    fourth: Operand<'a>,
) -> (F, Operands<'a>)
    ensures form { result.0 ≡ form }
    ensures operands { result.1.items
        ≡ first.entry ∷ second.entry ∷ third.entry ∷ fourth.entry ∷ [] }
{
    spell(form, &[first, second, third, fourth])
}

impl<'a> Operand<'a> {
    // Puts its words behind the text, each with a space behind it.
    pub(crate) fn push_to(&self, alloc: Global, text: &mut Vec<u8>) -> Result<(), AllocError>
        ensures { OnOk result (text.new.items ≡ text.old.items ++ with_spaces (shown self.now)) }
    {
        match self {
            Operand::One(word) => push_word(text, word.as_str()),
            Operand::Many(words) => push_words(text, words),
            Operand::Count(count) => push_word(text, count.to_string(alloc)?.as_str()),
            Operand::Number(number) => push_word(text, number.to_string(alloc)?.as_str()),
            Operand::Right(right) => push_word(text, if *right { "right" } else { "wrong" }),
        }
    }
}

fn push_words(text: &mut Vec<u8>, words: &WordList) -> Result<(), AllocError>
    ensures { OnOk result (text.new.items ≡ text.old.items ++ with_spaces words.now) }
{
    for word in words.as_slice() {
        push_word(text, word.as_str())?;
    }
    Ok(())
}

// The word, with a space behind it.
pub(crate) fn push_word(text: &mut Vec<u8>, word: &str) -> Result<(), AllocError>
    ensures { OnOk result (text.new.items ≡ text.old.items ++ (word.now ++ 32 ∷ [])) }
{
    text.extend_from_slice(word.as_bytes())?;
    text.push(b' ')?;
    Ok(())
}
