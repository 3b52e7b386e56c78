// A shelf in memory that never fails.
ghost use Rattle.std.specs.Prelude.{◌≡◌, ◌≤◌, ◌↔◌, true, false, Some, Ok, Err, IfOk, IfErr};
ghost use Rattle.std.specs.Prelude.{OnOk, OnErr, IsErrOf, length};
ghost use Rattle.std.specs.FinMap as map;
ghost use Rattle.ls_edge.specs.Causes.{one_more};
ghost use Rattle.ls_edge.specs.Files.{longest_file, TellsMore, GivesBytes, Fetches, Stores};
ghost use Rattle.ls_edge.specs.Files.{FetchCause, StoreCause, given};

use crate::{FetchFault, LONGEST_FILE, Shelf, StoreFault};
use std::alloc::{AllocError, Global};
use std::collections::BTreeMap;
use std::marker::Model;

/// A shelf of files in memory that never answers `Failed`.
#[derive(Drop)]
pub struct SureShelf {
    alloc: Global,
    files: BTreeMap<String, Vec<u8>>,
    calls: u64,
}

impl Model for SureShelf {
    ghost use Rattle.ls_edge.specs.Files.{folder_of};
    ghost use Rattle.ls_edge.specs.Memory.{SureShelfState, sure_shelf_code};

    ghost Value = { SureShelfState };

    ghost coded = { sure_shelf_code };

    ghost view = { λ s. record { files = folder_of s.files.entries; calls = s.calls } };
}

impl SureShelf {
    /// A shelf with no file.
    pub fn new(alloc: Global) -> Self
        ensures { result ≡ record { files = map.empty; calls = 0 } }
    {
        SureShelf {
            alloc,
            files: BTreeMap::new(alloc),
            calls: 0,
        }
    }

    // The bytes that a fetch has to give, or why it has none to give.
    pub(crate) fn file(&self, name: &str) -> Result<&[u8], FetchFault>
        ensures found { IfOk result (λ b. given (map.get self.now.files name.now) ≡ Ok b.now) }
        ensures refused { IfErr result (λ e. given (map.get self.now.files name.now) ≡ Err e) }
    {
        let Some(bytes) = self.files.get(name) else {
            return Err(FetchFault::Missing);
        };
        if bytes.len() > LONGEST_FILE {
            return Err(FetchFault::TooLarge {
                bytes: bytes.len() as u64,
            });
        }
        Ok(bytes)
    }

    // Keeps these bytes as the file of that name, unless memory runs out. It is not counted as a
    // call.
    pub(crate) fn keep(&mut self, name: &str, bytes: &[u8]) -> Result<(), AllocError>
        ensures ok { OnOk result (self.new ≡
            record self.old { files = map.insert self.old.files name.now bytes.now }) }
        ensures err { OnErr result (self.new ≡ self.old) }
    {
        let name = String::from_str(self.alloc, name)?;
        let bytes = Vec::from_slice(self.alloc, bytes)?;
        self.files.insert(name, bytes)?;
        Ok(())
    }
}

// A copy of these bytes, which only memory may refuse.
fn copy_of(alloc: Global, bytes: &[u8]) -> Result<Vec<u8>, FetchFault>
    ensures gives { GivesBytes bytes.now result }
    ensures sure { ¬ IsErrOf result FetchFault.Failed }
{
    Vec::from_slice(alloc, bytes).map_err(FetchFault::Memory)
}

impl Shelf for SureShelf {
    ghost files = { λ s. Some s.files };

    ghost faults = { λ _. 0 };

    ghost calls = { λ s. s.calls };

    ghost failed = { λ _. false };

    fn fetch(&mut self, name: &str) -> Result<Vec<u8>, FetchFault>
        ensures short { IfOk result (λ v. length v.items ≤ longest_file) }
        ensures large { IfErr result TellsMore }
        ensures files { Fetches (Some self.old.files) (Some self.new.files) name.now result }
        ensures cause { FetchCause 0 0 result }
        ensures calls { self.new.calls ≡ one_more self.old.calls }
        ensures last { IsErrOf result FetchFault.Failed ↔ (false ≡ true) }
        ensures sure { ¬ IsErrOf result FetchFault.Failed }
    {
        self.calls = self.calls.saturating_add(1);
        let bytes = self.file(name)?;
        copy_of(self.alloc, bytes)
    }

    fn store(&mut self, name: &str, bytes: &[u8]) -> Result<(), StoreFault>
        ensures files { Stores (Some self.old.files) (Some self.new.files)
            name.now bytes.now result }
        ensures cause { StoreCause 0 0 result }
        ensures calls { self.new.calls ≡ one_more self.old.calls }
        ensures last { IsErrOf result StoreFault.Failed ↔ (false ≡ true) }
        ensures sure { ¬ IsErrOf result StoreFault.Failed }
    {
        self.calls = self.calls.saturating_add(1);
        self.keep(name, bytes).map_err(StoreFault::Memory)
    }
}
