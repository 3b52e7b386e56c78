//! The program: the top call over the standard streams.
#![tactic(auto)]

use ls_edge::{FolderShelf, StdSink, StdSource};
use ls_shell::{Status, lspace};
use std::alloc::AllocError;
use std::env;
use std::fs::File;
use std::io::ErrorKind;
use std::process::ExitCode;
use std::rt::{Env, Files};
use std::thread::Threads;

// The words after the program's name. `None` where one isn't UTF-8.
fn command_words<R: Env + AllocGlobal>(rt: &R) -> Result<Option<Vec<String>>, AllocError> {
    let args = match env::args(rt) {
        Ok(args) => args,
        Err(e) if e.kind() == ErrorKind::OutOfMemory => return Err(AllocError),
        Err(_) => return Ok(None),
    };
    Ok(Some(args.skip(1).collect(rt.alloc())?))
}

// Each way out of a function is proved to let go of each value that it owns there, so the folder,
// the words and their texts have a function each.
fn run_in_folder<R>(rt: &R, words: &[&str]) -> Result<Status, AllocError>
where
    R: Files<File = File> + Input + Print + AllocGlobal + Threads + Sync,
{
    let mut shelf = FolderShelf::new(rt, ".")?;
    let mut src = StdSource::new(rt);
    let mut out = StdSink::new(rt);
    Ok(lspace(rt, rt.alloc(), words, &mut src, &mut out, &mut shelf))
}

fn run_words<R>(rt: &R, owned: &[String]) -> Result<Status, AllocError>
where
    R: Files<File = File> + Input + Print + AllocGlobal + Threads + Sync,
{
    let mut words = Vec::new(rt.alloc());
    for word in owned {
        words.push(word.as_str())?;
    }
    run_in_folder(rt, &words)
}

fn run<R>(rt: &R) -> Result<Status, AllocError>
where
    R: Files<File = File> + Input + Print + Env + AllocGlobal + Threads + Sync,
{
    match command_words(rt)? {
        Some(words) => run_words(rt, &words),
        None => Ok(Status::Usage),
    }
}

fn main(rt: HostRuntime) -> ExitCode {
    let status = match run(&rt) {
        Ok(status) => status,
        Err(AllocError) => Status::NoMemory,
    };
    ExitCode::from(status.code())
}
