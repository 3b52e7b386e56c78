// The adapter over one folder. It tells nothing of the files.
ghost use Rattle.std.specs.Prelude.{◌≡◌, ◌≤◌, ◌↔◌, true, false, None, IfOk, IfErr, IsErrOf, length};
ghost use Rattle.ls_edge.specs.Causes.{one_more};
ghost use Rattle.ls_edge.specs.Files.{longest_file, TellsMore, Fetches, Stores};
ghost use Rattle.ls_edge.specs.Files.{FetchCause, StoreCause};

mod beside;
mod reading;
mod replacing;

use crate::{FetchFault, Shelf, StoreFault};
use reading::read_file;
use replacing::replace;
use std::alloc::AllocError;
use std::fs::File;
use std::marker::Model;
use std::path::PathBuf;
use std::rt::Files;

/// The regular files of one folder as a shelf. It tells nothing of the files. A name of anything
/// else, as a folder or a pipe, answers `Failed`, and that isn't opened. A link is read as what it
/// leads to, and is replaced where a file is stored under its name.
///
/// A file is stored whole or not at all: it is written beside the one that it replaces, under a
/// name that begins with `.`, and takes its name when it is on the disk. So a store that fails, or
/// is cut off, leaves the old file as it was.
///
/// Clauses see the counts of its calls and of its faults, and whether the last call was one: each
/// call is a fault that fails for any reason but want of memory, a file to fetch that isn't there,
/// or one that is too large.
#[derive(Drop)]
pub struct FolderShelf<R: Files<File = File> + AllocGlobal + Drop> {
    rt: R,
    folder: PathBuf,
    calls: u64,
    faults: u64,
    failed: bool,
}

impl<R: Files<File = File> + AllocGlobal + Drop> Model for FolderShelf<R> {
    ghost use Rattle.ls_edge.specs.Memory.{FolderShelfState};

    ghost Value = { FolderShelfState };

    ghost view = { λ s. record { calls = s.calls; faults = s.faults; failed = s.failed } };
}

impl<R: Files<File = File> + AllocGlobal + Drop> FolderShelf<R> {
    /// The shelf over the folder of that path, with no call so far.
    pub fn new(rt: R, path: &str) -> Result<Self, AllocError>
        ensures { IfOk result (λ s. s ≡ record { calls = 0; faults = 0; failed = false }) }
    {
        let folder = PathBuf::from_str(rt.alloc(), path)?;
        Ok(FolderShelf {
            rt,
            folder,
            calls: 0,
            faults: 0,
            failed: false,
        })
    }

    // The bytes of the file of that name.
    fn read(&self, name: &str) -> Result<Vec<u8>, FetchFault>
        ensures short { IfOk result (λ v. length v.items ≤ longest_file) }
        ensures large { IfErr result TellsMore }
    {
        let path = self
            .folder
            .join(self.rt.alloc(), name)
            .map_err(FetchFault::Memory)?;
        read_file(&self.rt, path.as_path())
    }
}

impl<R: Files<File = File> + AllocGlobal + Drop> Shelf for FolderShelf<R> {
    ghost files = { λ _. None };

    ghost faults = { λ s. s.faults };

    ghost calls = { λ s. s.calls };

    ghost failed = { λ s. s.failed };

    fn fetch(&mut self, name: &str) -> Result<Vec<u8>, FetchFault>
        ensures short { IfOk result (λ v. length v.items ≤ longest_file) }
        ensures large { IfErr result TellsMore }
        ensures files { Fetches None None name.now result }
        ensures cause { FetchCause self.old.faults self.new.faults result }
        ensures calls { self.new.calls ≡ one_more self.old.calls }
        ensures last { IsErrOf result FetchFault.Failed ↔ (self.new.failed ≡ true) }
        ensures counts { IsErrOf result FetchFault.Failed →
            self.new.faults ≡ one_more self.old.faults }
        ensures else_kept { ¬ IsErrOf result FetchFault.Failed → self.new.faults ≡ self.old.faults }
    {
        self.calls = self.calls.saturating_add(1);
        self.failed = false;
        let answer = self.read(name);
        if let Err(FetchFault::Failed) = answer {
            self.faults = self.faults.saturating_add(1);
            self.failed = true;
        }
        answer
    }

    fn store(&mut self, name: &str, bytes: &[u8]) -> Result<(), StoreFault>
        ensures files { Stores None None name.now bytes.now result }
        ensures cause { StoreCause self.old.faults self.new.faults result }
        ensures calls { self.new.calls ≡ one_more self.old.calls }
        ensures last { IsErrOf result StoreFault.Failed ↔ (self.new.failed ≡ true) }
        ensures counts { IsErrOf result StoreFault.Failed →
            self.new.faults ≡ one_more self.old.faults }
        ensures else_kept { ¬ IsErrOf result StoreFault.Failed → self.new.faults ≡ self.old.faults }
    {
        self.calls = self.calls.saturating_add(1);
        self.failed = false;
        let answer = replace(&self.rt, self.folder.as_path(), name, bytes);
        if let Err(StoreFault::Failed) = answer {
            self.faults = self.faults.saturating_add(1);
            self.failed = true;
        }
        answer
    }
}
