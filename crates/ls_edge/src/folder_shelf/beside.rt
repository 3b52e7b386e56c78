// The new files that stand beside the files of a folder until they are whole. The program that has
// made one holds a lock on it, which ends with the program, however that ends.
use crate::StoreFault;
use std::alloc::AllocError;
use std::fs::{File, OpenOptions, TryLockError};
use std::io::ErrorKind;
use std::os::unix::fs::{MetadataExt, OpenOptionsExt};
use std::path::{Path, PathBuf};
use std::rt::Files;
use std::{fs, io};

// How many names are tried for a new file.
const MOST_TRIES: u32 = 10_000;

// How many of these names are looked at for files that were left, however few are taken.
const LOOKED_AT: u32 = 16;

// Why a file was not stored.
pub fn store_fault(error: io::Error) -> StoreFault {
    match error.kind() {
        ErrorKind::OutOfMemory => StoreFault::Memory(AllocError),
        _ => StoreFault::Failed,
    }
}

// The path of a new file of the folder, by the name that it is to have and a number. It begins with
// a dot, as no name of a file does that a script may say.
fn path_beside<R: AllocGlobal>(
    rt: &R,
    folder: Path<'_>,
    name: &str,
    number: u32,
) -> Result<PathBuf, AllocError> {
    let beside = format!(in rt.alloc(); ".{name}.part{number}")?;
    folder.join(rt.alloc(), beside.as_str())
}

// Whether the path leads to this open file still.
fn has_path<R: Files<File = File>>(rt: &R, file: &File, path: Path<'_>) -> bool {
    match (file.metadata(), fs::symlink_metadata(rt, path)) {
        (Ok(opened), Ok(found)) => opened.ino() == found.ino(),
        _ => false,
    }
}

// Holds a file that this program has made. Another may have found it before that, and then holds it
// itself or has taken it away. Where the system has no locks nobody takes anything away.
fn is_held<R: Files<File = File>>(rt: &R, file: &File, path: Path<'_>) -> bool {
    match file.try_lock() {
        Err(TryLockError::WouldBlock) => false,
        _ => has_path(rt, file, path),
    }
}

// Makes a new file of that path, which those may use that the mode allows, and holds it. There is
// none where the path is another file's.
fn make<R: Files<File = File>>(rt: &R, path: Path<'_>, mode: u32) -> io::Result<Option<File>> {
    let mut options = OpenOptions::new();
    options.write(true).create_new(true).mode(mode);
    match options.open(rt, path) {
        Ok(file) if is_held(rt, &file, path) => Ok(Some(file)),
        Ok(_) => Ok(None),
        Err(error) if error.kind() == ErrorKind::AlreadyExists => Ok(None),
        Err(error) => Err(error),
    }
}

/// A new file of the folder, its path and its number.
pub fn make_beside<R: Files<File = File> + AllocGlobal>(
    rt: &R,
    folder: Path<'_>,
    name: &str,
    mode: u32,
) -> Result<(File, PathBuf, u32), StoreFault> {
    for number in 0..MOST_TRIES {
        let path = path_beside(rt, folder, name, number).map_err(StoreFault::Memory)?;
        if let Some(file) = make(rt, path.as_path(), mode).map_err(store_fault)? {
            return Ok((file, path, number));
        }
    }
    Err(StoreFault::Failed)
}

// Takes a file away that one of these owners has and no program holds. It is looked at first, since
// to open a pipe is to wait for its other end. Where it can't be locked it stays.
fn take_away<R: Files<File = File>>(rt: &R, path: Path<'_>, owners: &[u32]) {
    match fs::symlink_metadata(rt, path) {
        Ok(about) if about.is_file() && owners.contains(&about.uid()) => {}
        _ => return,
    }
    let mut options = OpenOptions::new();
    options.write(true);
    if let Ok(file) = options.open(rt, path) {
        if file.try_lock().is_ok() && has_path(rt, &file, path) {
            let _ = fs::remove_file(rt, path);
        }
    }
}

/// Takes away what programs have left that were killed while they stored a file of that name. The
/// new file of this program, which has the number, stays. So do the others where memory runs out.
pub fn clear_beside<R: Files<File = File> + AllocGlobal>(
    rt: &R,
    folder: Path<'_>,
    name: &str,
    number: u32,
    owners: &[u32],
) {
    for other in 0..LOOKED_AT.max(number) {
        if other != number {
            match path_beside(rt, folder, name, other) {
                Ok(path) => take_away(rt, path.as_path(), owners),
                Err(AllocError) => return,
            }
        }
    }
}
