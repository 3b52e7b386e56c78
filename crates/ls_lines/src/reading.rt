// Reading a line by the table of forms.
ghost use Rattle.std.specs.Prelude.{◌≡◌, ◌<◌, ◌≤◌, ◌+◌, ℕ, None, Some, IfOk, IfSome, IsErrOf};
ghost use Rattle.std.specs.Prelude.{All, length, take};
ghost use Rattle.std.specs.Str.{IsAscii};
ghost use Rattle.ls_cutting.specs.Lines.{words, runs, longest_line};
ghost use Rattle.ls_lines.specs.Commands.{fits, front, command_of, fault_place};
ghost use Rattle.ls_lines.specs.Reading.{initial, begun_length};

use crate::cut::Cut;
use crate::{Command, Form, LineFault, Part, is_note};
use ls_cutting::{Token, push_runs, without_return};
use smallvec::SmallVec;
use std::alloc::Global;

/// The command that a line is. The line has no line feed, and at most as many bytes as are read.
pub fn read_command(alloc: Global, line: &[u8]) -> Result<Command, LineFault>
    requires { length line.now ≤ longest_line }
    ensures read { IfOk result (λ c. command_of (words line.now) ≡ Some c) }
    ensures shape { (place : ℕ)
        → IsErrOf result (LineFault.Shape place)
        → (command_of (words line.now) ≡ None) × (place ≡ fault_place (words line.now)) }
{
    if is_note(line) {
        return Ok(Command::Nothing);
    }
    read_runs(alloc, without_return(line))
}

// The command that the words of a line are, which is no note. It is not made part of its caller, so
// that a note needs no large frame.
#[inline(never)]
fn read_runs(alloc: Global, line: &[u8]) -> Result<Command, LineFault>
    requires { length line.now ≤ longest_line }
    ensures read { IfOk result (λ c. command_of (runs line.now) ≡ Some c) }
    ensures shape { (place : ℕ)
        → IsErrOf result (LineFault.Shape place)
        → (command_of (runs line.now) ≡ None) × (place ≡ fault_place (runs line.now)) }
{
    let mut words = SmallVec::new(alloc);
    push_runs(&mut words, line).map_err(LineFault::Memory)?;
    if words.is_empty() {
        return Ok(Command::Nothing);
    }
    read_words(alloc, words.as_slice())
}

// The command that the words are, by the form of which they are a line.
#[inline(never)]
fn read_words<'a>(alloc: Global, words: &'a [Token<'a>]) -> Result<Command, LineFault>
    requires some { 0 < length words.now }
    requires few { length words.now ≤ longest_line }
    ensures read { IfOk result (λ c. command_of words.now ≡ Some c) }
    ensures shape { (place : ℕ)
        → IsErrOf result (LineFault.Shape place)
        → (command_of words.now ≡ None) × (place ≡ fault_place words.now) }
{
    let forms = Form::with_initial(initial(words));
    for form in forms {
        if let Some(cut) = Cut::new(alloc, form.parts(), words) {
            return form.command(&cut).map_err(LineFault::Memory);
        }
    }
    let place = fault_place(words) as u32;
    Err(LineFault::Shape { place })
}

// The first byte of the first word.
fn initial(words: &[Token]) -> u8
    ensures { result ≡ initial words.now }
{
    match words {
        [] => 0,
        [word, ..] => word.as_bytes().first().copied().unwrap_or(0),
    }
}

// The place of a fault, in one pass for each form that its first word may begin.
fn fault_place(words: &[Token]) -> usize
    ensures place { result ≡ fault_place words.now }
    ensures within { result ≤ length words.now + 1 }
{
    let begun = Form::with_initial(initial(words))
        .iter()
        .map(|form| begun_length(form.parts(), words))
        .max()
        .unwrap_or(0);
    begun + 1
}

// How many words at the front some line of the form begins with.
fn begun_length(parts: &[Part], words: &[Token]) -> usize
    ensures value { result ≡ begun_length parts.now words.now }
    ensures within { result ≤ length words.now }
{
    let mut count = 0;
    for part in parts {
        let Some(more) = front(*part, &words[count..]) else {
            return count;
        };
        count += more;
    }
    count
}

// How many words at the front stand at the part.
pub(crate) fn front(part: Part, words: &[Token]) -> Option<usize>
    ensures value { result ≡ front part words.now }
    ensures within { IfSome result (λ m. m ≤ length words.now) }
    ensures ascii { IfSome result (λ m. All IsAscii (take m words.now)) }
{
    match part {
        Part::Many(_) => Some(words.iter().take_while(|word| fits(part, word)).count()),
        Part::Fixed(_) | Part::One(_) => match words.first() {
            Some(word) if fits(part, word) => Some(1),
            _ => None,
        },
    }
}

// Whether the word can stand at the part.
fn fits(part: Part, word: &Token) -> bool
    ensures { result ≡ fits part word.now }
{
    match part {
        Part::Fixed(keyword) => keyword.text().as_bytes() == word.as_bytes(),
        Part::One(kind) | Part::Many(kind) => kind.takes(word.as_bytes()),
    }
}
