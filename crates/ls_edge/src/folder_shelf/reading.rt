// A regular file is read.
ghost use Rattle.std.specs.Prelude.{◌≤◌, IfOk, IfErr, length};
ghost use Rattle.ls_edge.specs.Files.{longest_file, TellsMore};

use crate::{FetchFault, LONGEST_FILE};
use std::alloc::AllocError;
use std::fs::{File, OpenFile};
use std::io::{ErrorKind, Read};
use std::path::Path;
use std::rt::Files;
use std::{fs, io};

// Why a file that is there was not read.
fn read_fault(error: io::Error) -> FetchFault
    ensures { TellsMore result }
{
    match error.kind() {
        ErrorKind::OutOfMemory => FetchFault::Memory(AllocError),
        _ => FetchFault::Failed,
    }
}

// Why a file was not opened.
fn open_fault(error: io::Error) -> FetchFault
    ensures { TellsMore result }
{
    match error.kind() {
        ErrorKind::NotFound => FetchFault::Missing,
        _ => read_fault(error),
    }
}

// Opens a regular file, and tells how many bytes it has. What stands at the name is looked at
// before, since to open a pipe is to wait for its other end, and what was opened is looked at then,
// since another file may have come there meanwhile.
fn open_regular<R: Files>(rt: &R, path: Path<'_>) -> Result<(R::File, u64), FetchFault>
    ensures { IfErr result TellsMore }
{
    let about = fs::metadata(rt, path).map_err(open_fault)?;
    if !about.is_file() {
        return Err(FetchFault::Failed);
    }
    let file = File::open(rt, path).map_err(open_fault)?;
    let about = file.metadata().map_err(read_fault)?;
    if !about.is_file() {
        return Err(FetchFault::Failed);
    }
    Ok((file, about.len()))
}

/// The bytes of a regular file. Its length is looked at first, and no more than one byte past the
/// limit is read.
pub fn read_file<R: Files + AllocGlobal>(rt: &R, path: Path<'_>) -> Result<Vec<u8>, FetchFault>
    ensures short { IfOk result (λ v. length v.items ≤ longest_file) }
    ensures large { IfErr result TellsMore }
{
    let (file, mut length) = open_regular(rt, path)?;
    let mut bytes = Vec::new(rt.alloc());
    if length <= LONGEST_FILE as u64 {
        file.take(LONGEST_FILE as u64 + 1)
            .read_to_end(&mut bytes)
            .map_err(read_fault)?;
        length = bytes.len() as u64;
    }
    if length > LONGEST_FILE as u64 {
        return Err(FetchFault::TooLarge { bytes: length });
    }
    Ok(bytes)
}
