// The kinds of words.
ghost use Rattle.std.specs.Prelude.{◌≡◌};
ghost use Rattle.ls_cutting.specs.Kinds.{is_name_up_to, is_name_byte, is_file};
ghost use Rattle.ls_cutting.specs.Kinds.{is_cursor, is_cursor_byte};

use crate::number::number_up_to;

/// What a word of a command can be. An item's name is a name; it has to be one of the domain's. The
/// last kind has the two words `right` and `wrong`.
#[derive(Clone, Copy, PartialEq, Eq)]
pub enum Kind {
    Name,
    Item,
    File,
    Count,
    Number,
    Cursor,
    Right,
}

/// The most bytes that a name has.
const LONGEST_NAME: usize = 40;

/// The most bytes that a file's name has.
const LONGEST_FILE_NAME: usize = 64;

/// The most sets or paths that one page has.
pub const MOST_COUNTED: u32 = 65_536;

/// The greatest number.
pub const GREATEST_NUMBER: u32 = 999_999_999;

impl Kind {
    ghost use Rattle.ls_cutting.specs.Kinds.{is_of};

    /// Whether the word, given as its bytes, is of the kind.
    #[tactic(auto, unfolding(crate::specs::Kinds::is_of))]
    pub fn takes(self, word: &[u8]) -> bool
        ensures { result ≡ is_of self word.now }
    {
        match self {
            Kind::Name | Kind::Item => is_name_up_to(LONGEST_NAME, word),
            Kind::File => is_file(word),
            Kind::Count => number_up_to(MOST_COUNTED, word).is_some(),
            Kind::Number => number_up_to(GREATEST_NUMBER, word).is_some(),
            Kind::Cursor => is_cursor(word),
            Kind::Right => matches!(word, b"right" | b"wrong"),
        }
    }
}

// From one to the given number of name bytes.
fn is_name_up_to(most: usize, word: &[u8]) -> bool
    ensures { result ≡ is_name_up_to most word.now }
{
    (1..=most).contains(&word.len()) && word.iter().all(|b| is_name_byte(*b))
}

// A name of at most as many bytes as a file's name has, that does not begin with `.`.
fn is_file(word: &[u8]) -> bool
    ensures { result ≡ is_file word.now }
{
    is_name_up_to(LONGEST_FILE_NAME, word) && word[0] != b'.'
}

// A name byte: a letter, a digit, `_`, `-` or `.`.
fn is_name_byte(b: u8) -> bool
    ensures { result ≡ is_name_byte b }
{
    matches!(b, b'A'..=b'Z' | b'a'..=b'z' | b'0'..=b'9' | b'_' | b'-' | b'.')
}

// One cursor byte or more.
fn is_cursor(word: &[u8]) -> bool
    ensures { result ≡ is_cursor word.now }
{
    !word.is_empty() && word.iter().all(|b| is_cursor_byte(*b))
}

// From `!` to `~`, and no comma, colon or bar.
fn is_cursor_byte(b: u8) -> bool
    ensures { result ≡ is_cursor_byte b }
{
    matches!(b, b'!'..=b'~') && !matches!(b, b',' | b':' | b'|')
}
