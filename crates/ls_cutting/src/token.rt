// The words of a line, as parts of its bytes.
ghost use Rattle.std.specs.Prelude.{◌≡◌, ◌≤◌, ◌||◌, ◌==◌, nat_lt, if◌then◌else◌, true, OnOk};
ghost use Rattle.std.specs.Prelude.{[], ◌∷◌, ◌++◌, length};
ghost use Rattle.smallvec.specs.SmallVec.{small_vec_len};
ghost use Rattle.ls_cutting.specs.Lines.{without_return, is_note, is_blank, parts_words};
ghost use Rattle.ls_cutting.specs.Lines.{runs, words};

use smallvec::SmallVec;
use std::alloc::AllocError;
use std::marker::Model;

/// A word of a line, seen as its bytes, which stay in the line.
#[derive(Default, Drop)]
pub struct Token<'a> {
    bytes: &'a [u8],
}

impl<'a> Model for Token<'a> {
    ghost use Rattle.std.specs.Prelude.{List, ℕ};

    ghost Value = { List ℕ };

    ghost view = { λ t. t.bytes.now };
}

impl<'a> Token<'a> {
    /// The word's bytes, as they stand in the line.
    pub fn as_bytes(&self) -> &'a [u8]
        ensures { result.now ≡ self.now }
    {
        self.bytes
    }
}

/// The line without the one carriage return at its end, if it has one.
pub fn without_return(line: &[u8]) -> &[u8]
    ensures { result.now ≡ without_return line.now }
{
    match line {
        [body @ .., b'\r'] => body,
        _ => line,
    }
}

/// Whether the line is a note: its first byte after spaces and tabs is `#`. It has no words then.
pub fn is_note(line: &[u8]) -> bool
    ensures note { result ≡ is_note (without_return line.now) }
    ensures silent { result ≡ true → words line.now ≡ [] }
{
    begins_note(without_return(line))
}

// A note begins with `#`, after spaces and tabs.
fn begins_note(line: &[u8]) -> bool
    ensures { result ≡ is_note line.now }
{
    line.iter().find(|b| !is_blank(**b)).copied() == Some(b'#')
}

fn is_blank(b: u8) -> bool
    ensures { result ≡ is_blank b }
{
    b == b' ' || b == b'\t'
}

// Spaces, tabs and commas part words.
fn parts_words(b: u8) -> bool
    ensures { result ≡ parts_words b }
{
    is_blank(b) || b == b','
}

// A colon and a bar are words by themselves.
fn stands_alone(b: u8) -> bool
    ensures { result ≡ (b == 58 || b == 124) }
{
    b == b':' || b == b'|'
}

// How many words most lines have at most: these take no memory.
const MOSTLY: usize = 8;

/// Words of a line, in their order.
pub type Tokens<'a> = SmallVec<Token<'a>, MOSTLY>;

/// Puts the runs of bytes between those that part words into an empty list, in one pass. They are
/// the words of a line that is no note and has no carriage return at its end.
pub fn push_runs<'a>(tokens: &mut Tokens<'a>, line: &'a [u8]) -> Result<(), AllocError>
    requires { tokens.old.items ≡ [] }
    ensures runs { OnOk result (tokens.new.items ≡ runs line.now) }
    ensures few { OnOk result (small_vec_len tokens.new ≤ length line.now) }
{
    let mut start = 0;
    for (i, b) in line.iter().enumerate() {
        if parts_words(*b) {
            push_run(tokens, &line[start..i])?;
            start = i + 1;
        } else if stands_alone(*b) {
            push_run(tokens, &line[start..i])?;
            push_run(tokens, &line[i..i + 1])?;
            start = i + 1;
        }
    }
    push_run(tokens, &line[start..])
}

// A run of no bytes is no word.
fn push_run<'a>(tokens: &mut Tokens<'a>, run: &'a [u8]) -> Result<(), AllocError>
    ensures { OnOk result (tokens.new.items ≡ tokens.old.items ++
        (if nat_lt 0 (length run.now) then run.now ∷ [] else [])) }
{
    if !run.is_empty() {
        tokens.push(Token { bytes: run })?;
    }
    Ok(())
}
