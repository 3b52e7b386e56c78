// Lines of a file of pairs.
ghost use Rattle.std.specs.Prelude.{◌≡◌, ◌<◌, ◌||◌, ◌==◌, ℕ, length};
ghost use Rattle.ls_cutting.specs.Lines.{is_blank, parts_words, runs, without_return};
ghost use Rattle.ls_files.specs.PairFiles.{line_read};
ghost use Rattle.ls_files.specs.declared.pair_line.PairLine.TheVariants.{Pair};
ghost use Rattle.ls_order.specs.Words.{line_met, line_worded, with_word};

use crate::met::Met;
use ls_cutting::{Kind, is_note};
use ls_domain::Domain;
use ls_files::PairLine;

/// What a line is, given without its line feed.
pub(crate) fn read_line(d: &Domain, line: &[u8]) -> PairLine
    ensures read { result ≡ line_read d.now line.now }
    ensures items { (low high : ℕ) → result ≡ Pair low high →
        (low < length d.now) × (high < length d.now) }
{
    if is_note(line) {
        return PairLine::Passed;
    }
    read_body(d, without_return(line))
}

// What a line is that is no note, without the carriage return at its end.
fn read_body(d: &Domain, body: &[u8]) -> PairLine
    ensures { result ≡ line_worded d.now (runs body.now) }
{
    if body.iter().any(|b| stands_alone(*b)) {
        return PairLine::Bad;
    }
    let met = body
        .split(|b| parts_words(*b))
        .filter(|word| !word.is_empty())
        .fold(Met::Nothing, |met, word| with_word(d, met, word));
    line_met(met)
}

// The line without the one carriage return at its end, if it has one.
fn without_return(line: &[u8]) -> &[u8]
    ensures { result.now ≡ without_return line.now }
{
    match line {
        [body @ .., b'\r'] => body,
        _ => line,
    }
}

fn is_blank(b: u8) -> bool
    ensures { result ≡ is_blank b }
{
    b == b' ' || b == b'\t'
}

// Spaces, tabs and commas part words.
fn parts_words(b: u8) -> bool
    ensures { result ≡ parts_words b }
{
    is_blank(b) || b == b','
}

// A colon and a bar are words by themselves, and no names.
fn stands_alone(b: u8) -> bool
    ensures { result ≡ (b == 58 || b == 124) }
{
    b == b':' || b == b'|'
}

// The words so far, with one more.
fn with_word(d: &Domain, met: Met, word: &[u8]) -> Met
    ensures { result ≡ with_word d.now met word.now }
{
    if !Kind::Name.takes(word) {
        return Met::Bad;
    }
    let item = d.number(str::from_utf8(word).unwrap());
    match met {
        Met::Nothing => Met::One { low: item },
        Met::One { low } => Met::Two { low, high: item },
        Met::Two { .. } | Met::Bad => Met::Bad,
    }
}

// What a line is with these words.
fn line_met(met: Met) -> PairLine
    ensures { result ≡ line_met met }
{
    match met {
        Met::Nothing => PairLine::Passed,
        Met::One { .. } | Met::Bad => PairLine::Bad,
        Met::Two {
            low: Some(low),
            high: Some(high),
        } => PairLine::Pair { low, high },
        Met::Two { .. } => PairLine::Unknown,
    }
}
