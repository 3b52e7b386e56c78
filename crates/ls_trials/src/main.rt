//! Trials of the whole program over objects in memory. The cases are texts, in the files whose
//! names the command line has; `data/README.txt` says how one is written.
#![tactic(auto)]

mod case;
mod extent;
mod fault;
mod text;
mod trial;

use crate::text::Trouble;
use crate::trial::differing;
use std::rt::Files;
use std::thread::Threads;
use std::{env, fs, io};

// How many cases were tried, and how many of them held.
#[derive(Clone, Copy)]
struct Tally {
    tried: u64,
    held: u64,
}

// Tries a case, counts it, and names it where it doesn't hold.
fn try_case<R: Threads + Sync + AllocGlobal + Print>(
    rt: &R,
    name: &str,
    case: &str,
    tally: &mut Tally,
) -> io::Result<()> {
    tally.tried = tally.tried.saturating_add(1);
    match differing(rt, case) {
        Ok(None) => {
            tally.held = tally.held.saturating_add(1);
            Ok(())
        }
        Ok(Some(piece)) => println!(rt; "{name}: differs in pieces of {piece}"),
        Err(Trouble::Form) => println!(rt; "{name}: a line has none of the forms"),
        Err(Trouble::Memory) => println!(rt; "{name}: memory ran out"),
    }
}

// Tries the case that a part of a group is, which begins with the group's own lines.
fn try_part<R: Threads + Sync + AllocGlobal + Print>(
    rt: &R,
    title: &str,
    front: &str,
    part: &str,
    tally: &mut Tally,
) -> io::Result<()> {
    let (name, lines) = part.split_once('\n').unwrap_or((part, ""));
    let name = format!(in rt.alloc(); "{title}: {name}")?;
    let case = format!(in rt.alloc(); "{front}\n{lines}")?;
    try_case(rt, &name, &case, tally)
}

// Tries the cases of a group.
fn try_group<R: Threads + Sync + AllocGlobal + Print>(
    rt: &R,
    group: &str,
    tally: &mut Tally,
) -> io::Result<()> {
    let mut parts = group.split("\n# ");
    let front = parts.next().unwrap_or("");
    let (title, front) = front.split_once('\n').unwrap_or((front, ""));
    for part in parts {
        try_part(rt, title, front, part, tally)?;
    }
    Ok(())
}

// Tries the cases of the groups of a text.
fn try_text<R: Threads + Sync + AllocGlobal + Print>(
    rt: &R,
    text: &str,
    tally: &mut Tally,
) -> io::Result<()> {
    for group in text.split("\n== ").skip(1) {
        try_group(rt, group, tally)?;
    }
    Ok(())
}

// Tries the cases of a file, and tells how many held.
fn try_file<R: Threads + Sync + AllocGlobal + Print + Files>(
    rt: &R,
    name: &str,
    tally: &mut Tally,
) -> io::Result<()> {
    let text = fs::read_to_string(rt, name)?;
    let mut own = Tally { tried: 0, held: 0 };
    try_text(rt, &text, &mut own)?;
    let Tally { tried, held } = own;
    tally.tried = tally.tried.saturating_add(tried);
    tally.held = tally.held.saturating_add(held);
    println!(rt; "{name}: {held} of {tried} cases held")
}

fn main(rt: HostRuntime) -> io::Result<()> {
    let mut all = Tally { tried: 0, held: 0 };
    for name in env::args(&rt)?.skip(1) {
        try_file(&rt, &name, &mut all)?;
    }
    let Tally { tried, held } = all;
    println!(rt; "{held} of {tried} cases held")
}
