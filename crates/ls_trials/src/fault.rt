// The runs in which one call fails. What each is to write and to leave is told by the lines of the
// case and the number of the call alone.
use crate::case::{parts, tells_before, words_of};
use crate::text::{Trouble, push_line};
use std::alloc::{AllocError, Global};

/// What a failing call is one of: a read of the script, a write, a call on the folder.
#[derive(Clone, Copy, PartialEq, Eq)]
pub enum Side {
    Source,
    Sink,
    Shelf,
}

impl Side {
    /// As a case names it.
    pub fn name(self) -> &'static str {
        match self {
            Side::Source => "source",
            Side::Sink => "sink",
            Side::Shelf => "shelf",
        }
    }
}

/// A run in which one call fails, as a case of its own. It is to write no more than so many bytes
/// of what the case wants; where that isn't told by the lines, some front of it.
#[derive(Drop)]
pub struct FailedRun {
    pub case: String,
    pub most: Option<usize>,
}

// A line of the script: its bytes, those of its reply, and its calls on the folder. Turn 0 is what
// comes before the first line.
#[derive(Clone, Copy)]
struct Turn {
    script: usize,
    reply: usize,
    calls: usize,
}

// The turn at which a run stops or goes on otherwise, and the bytes that are written before its
// call fails.
#[derive(Clone, Copy)]
struct Place {
    turn: usize,
    written: usize,
}

// The commands that make one call on the folder.
const CALLING_ONCE: [&str; 7] = [
    "load-items",
    "start",
    "test",
    "skills",
    "class",
    "save",
    "open",
];

// Those that make two: a mesh is of two files here.
const CALLING_TWICE: [&str; 2] = ["mesh", "mesh-agree"];

// How many calls on the folder a line of the script makes.
fn calls_of(line: &str) -> usize {
    let (command, _) = parts(line);
    if CALLING_ONCE.contains(&command) {
        1
    } else if CALLING_TWICE.contains(&command) {
        2
    } else {
        0
    }
}

// How many bytes a line of a case stands for.
fn length_of(alloc: Global, case: &str, body: &str) -> Result<usize, Trouble> {
    let mut text = Vec::new(alloc);
    push_line(&mut text, case, body)?;
    Ok(text.len())
}

// The turns of a case.
fn turns_of(alloc: Global, case: &str) -> Result<Vec<Turn>, Trouble> {
    let is_named = words_of(alloc, case)?.first() == Some(&"--script");
    let mut turns = Vec::new(alloc);
    let mut turn = Turn {
        script: 0,
        reply: 0,
        calls: usize::from(is_named),
    };
    for line in case.lines() {
        let (mark, body) = parts(line);
        if mark == "<" {
            turns.push(turn)?;
            turn = Turn {
                script: length_of(alloc, case, body)?,
                reply: 0,
                calls: calls_of(body),
            };
        } else if mark == ">" {
            turn.reply = turn.reply.saturating_add(length_of(alloc, case, body)?);
        }
    }
    turns.push(turn)?;
    Ok(turns)
}

// How many bytes are read in a turn, or how many calls of another side it makes. Each reply is sent
// by itself.
fn cost_of(turn: Turn, side: Side, piece: usize) -> usize {
    match side {
        Side::Source => turn.script,
        Side::Sink => turn.reply.div_ceil(piece.max(1)),
        Side::Shelf => turn.calls,
    }
}

// Where the call after so many of a side is made.
fn place_of(
    alloc: Global,
    case: &str,
    side: Side,
    piece: usize,
    made: usize,
) -> Result<Place, Trouble> {
    let mut left = match side {
        Side::Source => made.saturating_mul(piece),
        Side::Sink | Side::Shelf => made,
    };
    let mut place = Place {
        turn: 0,
        written: 0,
    };
    for turn in &turns_of(alloc, case)? {
        let Some(rest) = left.checked_sub(cost_of(*turn, side, piece)) else {
            break;
        };
        left = rest;
        place.turn = place.turn.saturating_add(1);
        place.written = place.written.saturating_add(turn.reply);
    }
    place.written = place.written.saturating_add(left.saturating_mul(piece));
    Ok(place)
}

// Whether a turn has no reply, and stores no file, where a call fails at that turn.
fn is_lost(side: Side, place: usize, turn: usize) -> bool {
    match side {
        Side::Source => place <= turn,
        Side::Sink => place < turn,
        Side::Shelf => place == turn || place == 0,
    }
}

// Pushes a line of the case.
fn push(out: &mut String, line: &str) -> Result<(), AllocError> {
    out.push_str(line)?;
    out.push('\n')
}

// Pushes the lines of a case without what is lost. A file that isn't stored is as it was before.
fn push_kept(out: &mut String, case: &str, side: Side, place: usize) -> Result<(), AllocError> {
    let mut turn: usize = 0;
    let mut is_left_out = false;
    for line in case.lines() {
        let (mark, body) = parts(line);
        turn = turn.saturating_add(usize::from(mark == "<"));
        let is_lost = is_lost(side, place, turn);
        if mark != "|" {
            is_left_out = is_lost && matches!(mark, ">" | "=" | "-");
        }
        if !is_left_out {
            push(out, line)?;
        }
        if is_lost && mark == "=" && !tells_before(case, body) {
            out.push_str("- ")?;
            push(out, body)?;
        }
        if mark == "<" && side == Side::Shelf && turn == place {
            push(out, "> no 27")?;
        }
    }
    Ok(())
}

// The lines that say which call fails, and with which status the run ends then.
fn push_fault(out: &mut String, side: Side, place: usize, call: usize) -> Result<(), AllocError> {
    let alloc = *out.allocator();
    let name = side.name();
    let status = match side {
        Side::Shelf if place > 0 => 1,
        Side::Source | Side::Shelf => 3,
        Side::Sink => 4,
    };
    let lines = format!(in alloc; "! {name} {call}\n? {status}")?;
    push(out, &lines)
}

/// The run in which the call after so many of a side fails.
pub fn failed_run(
    alloc: Global,
    case: &str,
    side: Side,
    piece: usize,
    made: usize,
) -> Result<FailedRun, Trouble> {
    let is_open = case.lines().any(|line| line.starts_with('~'));
    let place = place_of(alloc, case, side, piece, made)?;
    let mut run = FailedRun {
        case: String::new(alloc),
        most: None,
    };
    if is_open {
        run.case.push_str(case)?;
        run.case.push('\n')?;
    } else {
        push_kept(&mut run.case, case, side, place.turn)?;
        run.most = Some(if side == Side::Sink {
            place.written
        } else {
            usize::MAX
        });
    }
    push_fault(&mut run.case, side, place.turn, made.saturating_add(1))?;
    Ok(run)
}
