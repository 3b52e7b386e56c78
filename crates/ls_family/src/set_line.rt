// Lines of a set file.
ghost use Rattle.std.specs.Prelude.{◌≡◌, option_map};
ghost use Rattle.std.specs.List.{list_all};
ghost use Rattle.ls_cutting.specs.{is_blank, parts_words, without_return};
ghost use Rattle.ls_files.specs.SetFiles.{unindented, until_brace, words_within, set_named};
ghost use Rattle.ls_files.specs.SetFiles.{body_read, line_read};
ghost use Rattle.ls_domain.specs.Domains.{is_name};
ghost use Rattle.ls_family.specs.Words.{items_known, with_word};

use crate::place::first_place;
use ls_cutting::Kind;
use ls_domain::Domain;
use ls_files::SetLine;
use ls_set::ItemSet;

/// What a line is, given without its line feed.
#[tactic(auto, unfolding(ls_files::specs::SetFiles::line_read))]
pub(crate) fn read_line(d: &Domain, line: &[u8]) -> SetLine
    ensures { result ≡ line_read d.now line.now }
{
    read_body(d, without_return(line))
}

// What a line is, without the carriage return at its end.
fn read_body(d: &Domain, body: &[u8]) -> SetLine
    ensures { result ≡ body_read d.now body.now }
{
    match unindented(body) {
        [] | [b'#', ..] => SetLine::Passed,
        [b'{', rest @ ..] => match until_brace(rest) {
            None => SetLine::Bad,
            Some(part) => set_named(d, part),
        },
        _ => SetLine::Bad,
    }
}

// The line without the one carriage return at its end, if it has one.
fn without_return(line: &[u8]) -> &[u8]
    ensures { result.now ≡ without_return line.now }
{
    match line {
        [body @ .., b'\r'] => body,
        _ => line,
    }
}

fn is_blank(b: u8) -> bool
    ensures { result ≡ is_blank b }
{
    b == b' ' || b == b'\t'
}

// Spaces, tabs and commas part words.
fn parts_words(b: u8) -> bool
    ensures { result ≡ parts_words b }
{
    is_blank(b) || b == b','
}

fn are_blank(bytes: &[u8]) -> bool
    ensures { result ≡ list_all is_blank bytes.now }
{
    bytes.iter().all(|b| is_blank(*b))
}

// The line from its first byte on that is no space and no tab.
fn unindented(line: &[u8]) -> &[u8]
    ensures { result.now ≡ unindented line.now }
{
    let start = line.iter().take_while(|b| is_blank(**b)).count();
    &line[start..]
}

// What stands before the first `}`, where spaces and tabs alone follow it.
fn until_brace(line: &[u8]) -> Option<&[u8]>
    ensures { option_map (λ part. part.now) result ≡ until_brace line.now }
{
    let Some(end) = first_place(b'}', line) else {
        return None;
    };
    if are_blank(&line[end + 1..]) {
        Some(&line[..end])
    } else {
        None
    }
}

// The set of the words between spaces, tabs and commas, if each is a name that an item has.
fn set_named(d: &Domain, part: &[u8]) -> SetLine
    ensures { result ≡ set_named d.now (words_within part.now) }
{
    match items_known(d, part) {
        Some(set) => SetLine::Set(set),
        None if are_names(part) => SetLine::Unknown,
        None => SetLine::Bad,
    }
}

// Whether each word is a name.
fn are_names(part: &[u8]) -> bool
    ensures { result ≡ list_all is_name (words_within part.now) }
{
    part.split(|b| parts_words(*b))
        .filter(|word| !word.is_empty())
        .all(|word| Kind::Name.takes(word))
}

// The set of the words' items, if each word is a name that an item has.
fn items_known(d: &Domain, part: &[u8]) -> Option<ItemSet>
    ensures { result ≡ items_known d.now (words_within part.now) }
{
    part.split(|b| parts_words(*b))
        .filter(|word| !word.is_empty())
        .fold(Some(ItemSet::empty()), |set, word| {
            with_word(d, set, word)
        })
}

// The set, if there is one, with the item of one word more.
fn with_word(d: &Domain, set: Option<ItemSet>, word: &[u8]) -> Option<ItemSet>
    ensures { result ≡ with_word d.now set word.now }
{
    let set = set?;
    let item = d.item_named(word)?;
    Some(set.with(item))
}
