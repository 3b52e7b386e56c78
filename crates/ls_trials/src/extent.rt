// How what was written compares with what is wanted.
use crate::text::OPEN;

#[derive(Clone, Copy, PartialEq, Eq)]
pub enum Extent {
    /// It is what is wanted.
    Whole,
    /// It is a front of that, but not the whole.
    Front,
    Other,
}

// Compares a line with the wanted one, of which an open end stands for any.
fn extent_of_line(wanted: &[u8], line: &[u8]) -> Extent {
    let open = wanted.strip_suffix(OPEN);
    if wanted == line || open.is_some_and(|front| line.starts_with(front)) {
        Extent::Whole
    } else if wanted.starts_with(line) {
        Extent::Front
    } else {
        Extent::Other
    }
}

/// Compares what was written with what is wanted, line by line.
pub fn extent_of(wanted: &[u8], written: &[u8]) -> Extent {
    let mut lines = written.split(|b| *b == b'\n');
    let mut last = Extent::Whole;
    for wanted in wanted.split(|b| *b == b'\n') {
        let Some(line) = lines.next() else {
            return Extent::Front;
        };
        if last != Extent::Whole {
            return Extent::Other;
        }
        last = extent_of_line(wanted, line);
    }
    match lines.next() {
        Some(_) => Extent::Other,
        None => last,
    }
}
