// A case, run in pieces of several sizes.
use crate::case::{
    File, files_of, is_formed, last_of, numbers_of, replies_of, script_of, tells, words_of,
};
use crate::extent::{Extent, extent_of};
use crate::fault::{Side, failed_run};
use crate::text::{Trouble, number};
use ls_edge::{FetchFault, MemShelf, MemSink, MemSource, Shelf};
use ls_shell::lspace;
use std::alloc::Global;
use std::thread::Threads;

// How many bytes one read and one write move at most, where a case doesn't say it.
const PIECES: [u64; 5] = [1, 2, 7, 12, 4096];

// The file that a case's own script is, where the command line names it.
const SCRIPT: &str = "script";

// What a run is to write, how far it comes, and the status with which it is to end.
#[derive(Drop)]
struct Wanted {
    replies: Vec<u8>,
    extent: Extent,
    status: u64,
}

// What a case's script is read from.
fn source_of(alloc: Global, case: &str, piece: usize) -> Result<MemSource, Trouble> {
    let reads = numbers_of(alloc, case, "! source")?;
    let script = script_of(alloc, case)?;
    Ok(MemSource::new(script, piece.max(1), reads))
}

// Runs a case as `meets` says, from the words of its command line and its source.
fn meets_from<R: Threads + Sync + AllocGlobal>(
    rt: &R,
    case: &str,
    piece: usize,
    words: &[&str],
    src: &mut MemSource,
    shelf: &mut MemShelf,
    wanted: &Wanted,
) -> Result<bool, Trouble> {
    let alloc = rt.alloc();
    let writes = numbers_of(alloc, case, "! sink")?;
    let mut out = MemSink::new(alloc, piece.max(1), writes);
    let status = lspace(rt, alloc, words, src, &mut out, shelf).code();
    let extent = extent_of(&wanted.replies, out.written());
    Ok(extent == wanted.extent && u64::from(status) == wanted.status)
}

// Runs a case over the files of a folder, which are then as the run left them, and says whether it
// wrote and ended as is wanted.
fn meets<R: Threads + Sync + AllocGlobal>(
    rt: &R,
    case: &str,
    piece: usize,
    shelf: &mut MemShelf,
    wanted: &Wanted,
) -> Result<bool, Trouble> {
    let words = words_of(rt.alloc(), case)?;
    let mut src = source_of(rt.alloc(), case, piece)?;
    meets_from(rt, case, piece, &words, &mut src, shelf, wanted)
}

// Puts the case's files into the folder, no more than so many bytes of each.
fn put_files(alloc: Global, case: &str, most: usize, shelf: &mut MemShelf) -> Result<(), Trouble> {
    for file in &files_of(alloc, case, "@")? {
        shelf.put(file.name, file.front(most))?;
    }
    Ok(())
}

// Whether the command line names the file that the script's own lines are.
fn names_script(alloc: Global, case: &str) -> Result<bool, Trouble> {
    let words = words_of(alloc, case)?;
    Ok(matches!(words.as_slice(), ["--script", name] if *name == SCRIPT))
}

// Puts the script's own lines into the folder, where the command line names the file `script`.
fn put_script(alloc: Global, case: &str, shelf: &mut MemShelf) -> Result<(), Trouble> {
    if !names_script(alloc, case)? {
        return Ok(());
    }
    Ok(shelf.put(SCRIPT, &script_of(alloc, case)?)?)
}

// Puts both.
fn put_all(alloc: Global, case: &str, most: usize, shelf: &mut MemShelf) -> Result<(), Trouble> {
    put_files(alloc, case, most, shelf)?;
    put_script(alloc, case, shelf)
}

// The folder before a run, which has no more than so many bytes of each file. Where the command line
// names the file `script`, the script's own lines are that file.
fn shelf_of(alloc: Global, case: &str, most: usize) -> Result<MemShelf, Trouble> {
    let mut shelf = MemShelf::new(alloc, numbers_of(alloc, case, "! shelf")?);
    put_all(alloc, case, most, &mut shelf)?;
    Ok(shelf)
}

// The file of that name. A call that is to fail is made again.
fn fetched(shelf: &mut MemShelf, name: &str) -> Result<Vec<u8>, FetchFault> {
    match shelf.fetch(name) {
        Err(FetchFault::Failed) => shelf.fetch(name),
        found => found,
    }
}

// Whether the folder has a file of these bytes. Of one that is too large the length is compared.
fn has(shelf: &mut MemShelf, name: &str, bytes: &[u8]) -> bool {
    match fetched(shelf, name) {
        Ok(found) => found.as_slice() == bytes,
        Err(FetchFault::TooLarge { bytes: length }) => length == bytes.len() as u64,
        Err(_) => false,
    }
}

// Whether the folder has each of these files.
fn has_all(shelf: &mut MemShelf, files: &[File], most: usize) -> bool {
    let mut is_so = true;
    for file in files {
        is_so = is_so && has(shelf, file.name, file.front(most));
    }
    is_so
}

// Whether the folder lacks each file that the case says is missing then.
fn lacks_all(shelf: &mut MemShelf, case: &str) -> bool {
    let mut is_so = true;
    for line in case.lines() {
        if let Some(name) = line.strip_prefix("- ") {
            is_so = is_so && matches!(fetched(shelf, name), Err(FetchFault::Missing));
        }
    }
    is_so
}

// Whether the folder has the files that it had before, but those that the case tells of.
fn has_kept(alloc: Global, case: &str, shelf: &mut MemShelf, most: usize) -> Result<bool, Trouble> {
    let mut before = files_of(alloc, case, "@")?;
    before.retain(|file| !tells(case, file.name));
    Ok(has_all(shelf, &before, most))
}

// Whether the folder has the files that the case says it has after a run.
fn has_stored(alloc: Global, case: &str, shelf: &mut MemShelf) -> Result<bool, Trouble> {
    let after = files_of(alloc, case, "=")?;
    Ok(has_all(shelf, &after, usize::MAX))
}

// Whether the folder is as the case says after a run: a file that it doesn't name is as before.
fn is_left(alloc: Global, case: &str, shelf: &mut MemShelf, most: usize) -> Result<bool, Trouble> {
    let is_kept = has_kept(alloc, case, shelf, most)?;
    let is_stored = has_stored(alloc, case, shelf)?;
    Ok(is_kept && is_stored && lacks_all(shelf, case))
}

// What a run to the end is to write. Its status is told by the replies, where the case doesn't.
fn whole_of(alloc: Global, case: &str) -> Result<Wanted, Trouble> {
    let replies = replies_of(alloc, case)?;
    let mut lines = replies.split(|b| *b == b'\n');
    let is_refused = lines.any(|line| line.starts_with(b"no "));
    let status = last_of(case, "?").map_or(Ok(u64::from(is_refused)), number)?;
    let extent = Extent::Whole;
    Ok(Wanted {
        replies,
        extent,
        status,
    })
}

// Whether a run writes, ends and leaves what is wanted, over the folder of no more than so many
// bytes of each file.
fn holds_over<R: Threads + Sync + AllocGlobal>(
    rt: &R,
    case: &str,
    piece: usize,
    most: usize,
    wanted: &Wanted,
    shelf: &mut MemShelf,
) -> Result<bool, Trouble> {
    let is_met = meets(rt, case, piece, shelf, wanted)?;
    Ok(is_met && is_left(rt.alloc(), case, shelf, most)?)
}

// The same, over such a folder.
fn run_holds<R: Threads + Sync + AllocGlobal>(
    rt: &R,
    case: &str,
    piece: usize,
    most: usize,
    wanted: &Wanted,
) -> Result<bool, Trouble> {
    let mut shelf = shelf_of(rt.alloc(), case, most)?;
    holds_over(rt, case, piece, most, wanted, &mut shelf)
}

// Whether a run to the end holds, over no more than so many bytes of each file.
fn whole_holds<R: Threads + Sync + AllocGlobal>(
    rt: &R,
    case: &str,
    piece: usize,
    most: usize,
) -> Result<bool, Trouble> {
    run_holds(rt, case, piece, most, &whole_of(rt.alloc(), case)?)
}

// How many bytes the first file has, if there is one.
fn first_length(alloc: Global, case: &str) -> Result<usize, Trouble> {
    let files = files_of(alloc, case, "@")?;
    Ok(files.first().map_or(0, |file| file.bytes.len()))
}

// Whether runs hold over each front of the files but the whole of the first.
fn fronts_hold<R: Threads + Sync + AllocGlobal>(
    rt: &R,
    case: &str,
    piece: usize,
) -> Result<bool, Trouble> {
    for most in 0..first_length(rt.alloc(), case)? {
        if !whole_holds(rt, case, piece, most)? {
            return Ok(false);
        }
    }
    Ok(true)
}

// Whether a run holds in which the call after so many fails.
fn failed_holds<R: Threads + Sync + AllocGlobal>(
    rt: &R,
    case: &str,
    piece: usize,
    side: Side,
    made: usize,
) -> Result<bool, Trouble> {
    let run = failed_run(rt.alloc(), case, side, piece, made)?;
    let mut wanted = whole_of(rt.alloc(), &run.case)?;
    match run.most {
        Some(most) => wanted.replies.truncate(most),
        None => wanted.extent = Extent::Front,
    }
    run_holds(rt, &run.case, piece, usize::MAX, &wanted)
}

// Whether the runs hold in which each of so many calls fails in turn, and one in which the call
// after them would, which no run makes.
fn each_holds<R: Threads + Sync + AllocGlobal>(
    rt: &R,
    case: &str,
    piece: usize,
    side: Side,
    calls: u64,
) -> Result<bool, Trouble> {
    let made = usize::try_from(calls).map_err(|_| Trouble::Form)?;
    for made in 0..made {
        if !failed_holds(rt, case, piece, side, made)? {
            return Ok(false);
        }
    }
    let name = side.name();
    let call = calls.saturating_add(1);
    let whole = format!(in rt.alloc(); "{case}\n! {name} {call}")?;
    whole_holds(rt, &whole, piece, usize::MAX)
}

// The calls that fail in turn, where a case says so, and how many a run makes.
fn each_of(case: &str) -> Option<(Side, &str)> {
    if let Some(calls) = last_of(case, "! source-each") {
        return Some((Side::Source, calls));
    }
    if let Some(calls) = last_of(case, "! sink-each") {
        return Some((Side::Sink, calls));
    }
    last_of(case, "! shelf-each").map(|calls| (Side::Shelf, calls))
}

// Whether a case holds where one read and one write move at most so many bytes.
fn holds<R: Threads + Sync + AllocGlobal>(
    rt: &R,
    case: &str,
    piece: usize,
) -> Result<bool, Trouble> {
    if let Some((side, calls)) = each_of(case) {
        each_holds(rt, case, piece, side, number(calls)?)
    } else if last_of(case, "! cut").is_some() {
        fronts_hold(rt, case, piece)
    } else {
        whole_holds(rt, case, piece, usize::MAX)
    }
}

/// The first size of pieces in which a case doesn't hold.
pub fn differing<R: Threads + Sync + AllocGlobal>(
    rt: &R,
    case: &str,
) -> Result<Option<usize>, Trouble> {
    if !is_formed(case) {
        return Err(Trouble::Form);
    }
    let own = numbers_of(rt.alloc(), case, "%")?;
    let pieces = if own.is_empty() {
        &PIECES
    } else {
        own.as_slice()
    };
    for piece in pieces {
        let piece = usize::try_from(*piece).map_err(|_| Trouble::Form)?;
        if !holds(rt, case, piece)? {
            return Ok(Some(piece));
        }
    }
    Ok(None)
}
