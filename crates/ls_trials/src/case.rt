// What the lines of a case give. Each begins with a mark; a group's own lines stand before them.
use crate::text::{Trouble, number, push_line, push_open_lines};
use std::alloc::{AllocError, Global};

/// A line's mark, and what stands behind it.
pub fn parts(line: &str) -> (&str, &str) {
    line.split_once(' ').unwrap_or((line, ""))
}

// What stands behind these words at a line's front.
fn behind<'a>(line: &'a str, words: &str) -> Option<&'a str> {
    let rest = line.strip_prefix(words)?;
    if rest.is_empty() {
        return Some("");
    }
    rest.strip_prefix(' ')
}

/// What stands behind these words in the last line that begins with them.
pub fn last_of<'a>(case: &'a str, words: &str) -> Option<&'a str> {
    let mut found = None;
    for line in case.lines() {
        if let Some(rest) = behind(line, words) {
            found = Some(rest);
        }
    }
    found
}

/// The numbers that stand behind these words in the last line that begins with them.
pub fn numbers_of(alloc: Global, case: &str, words: &str) -> Result<Vec<u64>, Trouble> {
    let mut numbers = Vec::new(alloc);
    for word in last_of(case, words).unwrap_or("").split_whitespace() {
        numbers.push(number(word)?)?;
    }
    Ok(numbers)
}

/// The words of the command line.
pub fn words_of<'a>(alloc: Global, case: &'a str) -> Result<Vec<&'a str>, AllocError> {
    let mut words = Vec::new(alloc);
    for line in case.lines() {
        if let ("$", body) = parts(line) {
            words.extend(body.split(' '))?;
        }
    }
    Ok(words)
}

/// The script.
pub fn script_of(alloc: Global, case: &str) -> Result<Vec<u8>, Trouble> {
    let mut script = Vec::new(alloc);
    for line in case.lines() {
        if let ("<", body) = parts(line) {
            push_line(&mut script, case, body)?;
        }
    }
    Ok(script)
}

/// The replies.
pub fn replies_of(alloc: Global, case: &str) -> Result<Vec<u8>, Trouble> {
    let mut replies = Vec::new(alloc);
    for line in case.lines() {
        match parts(line) {
            (">", body) => push_line(&mut replies, case, body)?,
            ("~", body) => push_open_lines(&mut replies, body)?,
            _ => {}
        }
    }
    Ok(replies)
}

/// A file of the folder.
#[derive(Drop)]
pub struct File<'a> {
    pub name: &'a str,
    pub bytes: Vec<u8>,
}

impl File<'_> {
    /// The first bytes, of which there are at most so many.
    pub fn front(&self, most: usize) -> &[u8] {
        self.bytes.get(..most).unwrap_or(&self.bytes)
    }
}

/// The files that begin with this mark.
pub fn files_of<'a>(alloc: Global, case: &'a str, mark: &str) -> Result<Vec<File<'a>>, Trouble> {
    let mut files = Vec::new(alloc);
    let mut is_own = false;
    for line in case.lines() {
        match parts(line) {
            ("@" | "=", name) => {
                is_own = line.starts_with(mark);
                if is_own {
                    let bytes = Vec::new(alloc);
                    files.push(File { name, bytes })?;
                }
            }
            ("|", body) if is_own => {
                let file: &mut File = files.last_mut().ok_or(Trouble::Form)?;
                push_line(&mut file.bytes, case, body)?;
            }
            _ => {}
        }
    }
    Ok(files)
}

/// Whether the case says what the file of that name is after the run, or that it is missing then.
pub fn tells(case: &str, name: &str) -> bool {
    case.lines().any(|line| matches!(parts(line), ("=" | "-", told) if told == name))
}

/// Whether the folder has a file of that name before the run.
pub fn tells_before(case: &str, name: &str) -> bool {
    case.lines().any(|line| parts(line) == ("@", name))
}

// The marks of lines that stand anywhere and with any text.
const MARKS: [&str; 11] = ["", "<", ">", "~", "@", "=", "-", "?", "$", "%", ":"];

// What stands behind `!` in front of the rest.
const FAULTS: [&str; 7] = [
    "source",
    "sink",
    "shelf",
    "source-each",
    "sink-each",
    "shelf-each",
    "cut",
];

// Whether a line has one of the forms. A line of a file has one of its own before.
fn is_line(line: &str, has_file: bool) -> bool {
    match parts(line) {
        ("|", _) => has_file,
        ("!", fault) => FAULTS.contains(&parts(fault).0),
        (mark, _) => MARKS.contains(&mark),
    }
}

/// Whether each line of a case has one of the forms.
pub fn is_formed(case: &str) -> bool {
    let mut has_file = false;
    for line in case.lines() {
        if !is_line(line, has_file) {
            return false;
        }
        has_file = has_file || line.starts_with('@') || line.starts_with('=');
    }
    true
}
