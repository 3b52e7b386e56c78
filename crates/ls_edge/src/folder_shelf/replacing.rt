// A file of a folder is replaced whole, or stays as it was.
use super::beside::{clear_beside, make_beside, store_fault};
use crate::StoreFault;
use std::fs::{File, Metadata, OpenOptions, Permissions};
use std::io::{ErrorKind, Write};
use std::os::unix::fs::{MetadataExt, PermissionsExt, fchown};
use std::path::Path;
use std::rt::Files;
use std::{fs, io};

// What a new file may be used for, where it replaces none; the system takes some of it away.
const ALL_MAY_WRITE: u32 = 0o666;

// What it may be used for until it is whole, where it replaces one.
const OWNER_MAY_WRITE: u32 = 0o600;

// What the owner, the group and all others may do, without the set-user-ID, the set-group-ID and
// the sticky bit.
const PERMISSION_BITS: u32 = 0o777;

// Whether the caller may write the file. Nothing is written to it.
fn try_to_write<R: Files<File = File>>(rt: &R, path: Path<'_>) -> io::Result<()> {
    let mut options = OpenOptions::new();
    options.write(true);
    options.open(rt, path)?;
    Ok(())
}

// What is known of the regular file that is to be replaced. A link has nothing to hand on: it is
// replaced itself, and what it leads to stays. Nothing else is replaced, nor a file that nobody or
// not the caller may write.
fn replaced<R: Files<File = File>>(rt: &R, path: Path<'_>) -> Result<Option<Metadata>, StoreFault> {
    match fs::symlink_metadata(rt, path) {
        Ok(about) if about.is_symlink() => Ok(None),
        Ok(about) if about.is_file() && !about.permissions().readonly() => {
            try_to_write(rt, path).map_err(store_fault)?;
            Ok(Some(about))
        }
        Ok(_) => Err(StoreFault::Failed),
        Err(error) if error.kind() == ErrorKind::NotFound => Ok(None),
        Err(error) => Err(store_fault(error)),
    }
}

// Gives the new file the owner, the group and the permissions of the old one, in this order: so
// nobody may use it who might not use the old one. The system refuses to give away a file to whom
// the caller can't, and then it isn't stored.
fn hand_on(file: &File, made: &Metadata, old: &Metadata) -> io::Result<()> {
    if made.uid() != old.uid() || made.gid() != old.gid() {
        fchown(file, Some(old.uid()), Some(old.gid()))?;
    }
    file.set_permissions(Permissions::from_mode(old.mode() & PERMISSION_BITS))
}

// Writes a new file, makes it that of whom the old one was, and sees to it that it is on the disk.
fn fill(mut file: &File, bytes: &[u8], made: &Metadata, old: Option<&Metadata>) -> io::Result<()> {
    file.write_all(bytes)?;
    if let Some(old) = old {
        hand_on(file, made, old)?;
    }
    file.sync_all()
}

// Sees to it that the folder's names are on the disk, where the system does that for folders. What
// has the name is whole in any case, so that this fails is no fault of the store.
fn settle<R: Files<File = File>>(rt: &R, folder: Path<'_>) {
    if let Ok(names) = File::open(rt, folder) {
        let _ = names.sync_all();
    }
}

/// Stores the bytes under a name of the folder. They are written to a new file beside the one of
/// that name, which takes its place when it is whole and on the disk. Where that fails, the new
/// file is taken away, and the old one is as it was.
pub fn replace<R: Files<File = File> + AllocGlobal>(
    rt: &R,
    folder: Path<'_>,
    name: &str,
    bytes: &[u8],
) -> Result<(), StoreFault> {
    let path = folder.join(rt.alloc(), name).map_err(StoreFault::Memory)?;
    let old = replaced(rt, path.as_path())?;
    let mode = if old.is_some() {
        OWNER_MAY_WRITE
    } else {
        ALL_MAY_WRITE
    };
    let (file, beside, number) = make_beside(rt, folder, name, mode)?;
    let stored = file.metadata().and_then(|made| {
        let owner = old.as_ref().map_or(made.uid(), |old| old.uid());
        clear_beside(rt, folder, name, number, &[made.uid(), owner]);
        fill(&file, bytes, &made, old.as_ref())?;
        fs::rename(rt, beside.as_path(), path.as_path())
    });
    match stored {
        Ok(()) => settle(rt, folder),
        Err(_) => {
            let _ = fs::remove_file(rt, beside.as_path());
        }
    }
    stored.map_err(store_fault)
}
