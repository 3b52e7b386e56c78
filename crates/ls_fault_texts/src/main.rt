//! Prints a fault of each kind. What is printed is compared with the stored lines in `stdout`.
#![tactic(auto)]

mod engine;
mod files;
mod ground;
mod origins;

use std::fmt::Display;
use std::io;

// Prints faults of a kind, each on a line of its own.
fn print_each<R: Print, T: Display>(rt: &R, kind: &str, faults: &[T]) -> io::Result<()> {
    for fault in faults {
        println!(rt; "{kind}: {fault}")?;
    }
    Ok(())
}

fn main(rt: HostRuntime) -> io::Result<()> {
    ground::print(&rt)?;
    files::print(&rt)?;
    engine::print(&rt)?;
    origins::print(&rt)
}
