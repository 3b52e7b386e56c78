// The text that a line of a case stands for.
use crate::case::last_of;
use std::alloc::{AllocError, AllocFailed};

/// Stands in what is wanted for the rest of a line, whatever it is.
pub const OPEN: &[u8] = b"\0";

/// Why a case can't be tried.
#[derive(Drop)]
pub enum Trouble {
    /// A line has none of the forms.
    Form,
    /// Memory ran out.
    Memory,
}

impl From<AllocError> for Trouble {
    fn from(_error: AllocError) -> Trouble {
        Trouble::Memory
    }
}

impl<T: Drop> From<AllocFailed<T>> for Trouble {
    fn from(_error: AllocFailed<T>) -> Trouble {
        Trouble::Memory
    }
}

/// The number that a word is.
pub fn number(word: &str) -> Result<u64, Trouble> {
    word.parse::<u64>().map_err(|_| Trouble::Form)
}

// Pushes the byte that an escape stands for, and what follows it.
fn push_escape(out: &mut Vec<u8>, escape: &str) -> Result<(), Trouble> {
    let (mark, mut rest) = escape.split_at_checked(1).ok_or(Trouble::Form)?;
    let byte = match mark {
        "n" => b'\n',
        "r" => b'\r',
        "t" => b'\t',
        "x" => {
            let (digits, others) = rest.split_at_checked(2).ok_or(Trouble::Form)?;
            rest = others;
            u8::from_str_radix(digits, 16).map_err(|_| Trouble::Form)?
        }
        _ => return Err(Trouble::Form),
    };
    out.push(byte)?;
    Ok(out.extend_from_slice(rest.as_bytes())?)
}

// Pushes a text, in which a backslash begins an escape; two of them are one.
fn push_escaped(out: &mut Vec<u8>, text: &str) -> Result<(), Trouble> {
    let mut is_plain = true;
    for part in text.split('\\') {
        if is_plain {
            out.extend_from_slice(part.as_bytes())?;
            is_plain = false;
        } else if part.is_empty() {
            out.push(b'\\')?;
            is_plain = true;
        } else {
            push_escape(out, part)?;
        }
    }
    Ok(())
}

// The first and the last number of a group that stands for each of them.
fn range_of(group: &str) -> Option<(u64, u64)> {
    let (first, last) = group.split_once('-')?;
    Some((number(first).ok()?, number(last).ok()?))
}

// How many texts a group stands for.
fn choices_of(group: &str) -> u64 {
    if group.contains('|') {
        return group.split('|').count() as u64;
    }
    range_of(group).map_or(1, |(first, last)| {
        last.saturating_sub(first).saturating_add(1)
    })
}

// How many texts a line stands for, one for each choice in its groups.
fn texts_of(line: &str) -> Result<u64, Trouble> {
    let mut count = 1u64;
    for part in line.split('(').skip(1) {
        let (group, _) = part.split_once(')').ok_or(Trouble::Form)?;
        count = count.checked_mul(choices_of(group)).ok_or(Trouble::Form)?;
    }
    Ok(count)
}

// Pushes a text so many times.
fn push_repeated(out: &mut Vec<u8>, count: u64, text: &str) -> Result<(), Trouble> {
    let mut bytes = Vec::new(*out.allocator());
    push_escaped(&mut bytes, text)?;
    for _ in 0..count {
        out.extend_from_slice(&bytes)?;
    }
    Ok(())
}

// Pushes a choice of a group.
fn push_choice(out: &mut Vec<u8>, case: &str, group: &str, choice: u64) -> Result<(), Trouble> {
    let alloc = *out.allocator();
    if group.contains('|') {
        let choice = usize::try_from(choice).map_err(|_| Trouble::Form)?;
        return push_escaped(out, group.split('|').nth(choice).unwrap_or(""));
    }
    if let Some((first, _)) = range_of(group) {
        let number = first.saturating_add(choice);
        return push_escaped(out, &format!(in alloc; "{number}")?);
    }
    if let Some((count, text)) = group.split_once('*') {
        return push_repeated(out, number(count)?, text);
    }
    let mark = format!(in alloc; ": {group}")?;
    push_escaped(out, last_of(case, &mark).ok_or(Trouble::Form)?)
}

// Pushes that one of the texts that a line stands for. The last group's choice changes first.
fn push_text(
    out: &mut Vec<u8>,
    case: &str,
    line: &str,
    mut count: u64,
    mut place: u64,
) -> Result<(), Trouble> {
    let front = line.split('(').next().unwrap_or("");
    push_escaped(out, front)?;
    for part in line.split('(').skip(1) {
        let (group, rest) = part.split_once(')').ok_or(Trouble::Form)?;
        count = count.checked_div(choices_of(group)).ok_or(Trouble::Form)?;
        let choice = place.checked_div(count).ok_or(Trouble::Form)?;
        place = place.checked_rem(count).ok_or(Trouble::Form)?;
        push_choice(out, case, group, choice)?;
        push_escaped(out, rest)?;
    }
    Ok(())
}

/// Pushes the texts that a line of a case stands for, each with a line end unless a backslash ends
/// the line.
pub fn push_line(out: &mut Vec<u8>, case: &str, line: &str) -> Result<(), Trouble> {
    let (line, end) = match line.strip_suffix('\\') {
        Some(front) => (front, ""),
        None => (line, "\n"),
    };
    let count = texts_of(line)?;
    for place in 0..count {
        push_text(out, case, line, count, place)?;
        out.extend_from_slice(end.as_bytes())?;
    }
    Ok(())
}

/// Pushes so many lines that begin with a text, and go on with any.
pub fn push_open_lines(out: &mut Vec<u8>, line: &str) -> Result<(), Trouble> {
    let (count, front) = line.split_once(' ').ok_or(Trouble::Form)?;
    for _ in 0..number(count)? {
        out.extend_from_slice(front.as_bytes())?;
        out.extend_from_slice(OPEN)?;
        out.push(b'\n')?;
    }
    Ok(())
}
