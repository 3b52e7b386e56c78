// A shelf in memory with calls that fail.
ghost use Rattle.std.specs.Prelude.{◌≡◌, ◌≤◌, ◌↔◌, Some, true, false, IfOk, IfErr, OnOk, OnErr};
ghost use Rattle.std.specs.Prelude.{IsErrOf, length};
ghost use Rattle.std.specs.FinMap as map;
ghost use Rattle.ls_edge.specs.Causes.{one_more};
ghost use Rattle.ls_edge.specs.Files.{longest_file, TellsMore, Fetches, Stores};
ghost use Rattle.ls_edge.specs.Files.{FetchCause, StoreCause};
ghost use Rattle.ls_edge.specs.Memory.{ShelfState, fails_next, next_faults, fetch_fails};
ghost use Rattle.ls_edge.specs.Memory.{fetch_faults};

use crate::calls::Calls;
use crate::{FetchFault, Shelf, StoreFault, SureShelf};
use std::alloc::{AllocError, Global};
use std::marker::Model;

/// A shelf of files in memory, some calls of which fail.
#[derive(Drop)]
pub struct MemShelf {
    shelf: SureShelf,
    calls: Calls,
}

impl Model for MemShelf {
    ghost use Rattle.ls_edge.specs.Memory.{ShelfState, shelf_code};

    ghost Value = { ShelfState };

    ghost coded = { shelf_code };

    ghost view = { λ s. record {
      files = s.shelf.files;
      fails = s.calls.fails;
      calls = s.calls.calls;
      faults = s.calls.faults;
      failed = s.calls.last;
    } };
}

impl MemShelf {
    /// A shelf with no file. The calls of `fetch` and `store` whose numbers, counted from 1, are in
    /// `fails` fail, but for a fetch that has no file to give; a call after number 2^64 - 1
    /// doesn't.
    pub fn new(alloc: Global, fails: Vec<u64>) -> Self
        ensures { result ≡ record {
          files = map.empty;
          fails = fails.items;
          calls = 0;
          faults = 0;
          failed = false;
        } }
    {
        MemShelf {
            shelf: SureShelf::new(alloc),
            calls: Calls::new(fails),
        }
    }

    /// Keeps these bytes as the file of that name, in place of any that it had, unless memory runs
    /// out. It is not counted as a call.
    pub fn put(&mut self, name: &str, bytes: &[u8]) -> Result<(), AllocError>
        ensures ok { OnOk result (self.new ≡
            record self.old { files = map.insert self.old.files name.now bytes.now }) }
        ensures err { OnErr result (self.new ≡ self.old) }
    {
        self.shelf.keep(name, bytes)
    }
}

impl Shelf for MemShelf {
    ghost files = { λ s. Some s.files };

    ghost faults = { λ s. s.faults };

    ghost calls = { λ s. s.calls };

    ghost failed = { λ s. s.failed };

    fn fetch(&mut self, name: &str) -> Result<Vec<u8>, FetchFault>
        ensures short { IfOk result (λ v. length v.items ≤ longest_file) }
        ensures large { IfErr result TellsMore }
        ensures files { Fetches (Some self.old.files) (Some self.new.files) name.now result }
        ensures cause { FetchCause self.old.faults self.new.faults result }
        ensures calls { self.new.calls ≡ one_more self.old.calls }
        ensures last { IsErrOf result FetchFault.Failed ↔ (self.new.failed ≡ true) }

        // Which calls fail.
        ensures fails { IsErrOf result FetchFault.Failed ↔ (fetch_fails self.old name.now ≡ true) }

        // The other counter, and what stays.
        ensures faults { self.new.faults ≡ fetch_faults self.old name.now }
        ensures kept_fails { self.new.fails ≡ self.old.fails }
    {
        if let Err(fault) = self.shelf.file(name) {
            self.calls.pass();
            return Err(fault);
        }
        if self.calls.next_fails() {
            return Err(FetchFault::Failed);
        }
        self.shelf.fetch(name)
    }

    fn store(&mut self, name: &str, bytes: &[u8]) -> Result<(), StoreFault>
        ensures files { Stores (Some self.old.files) (Some self.new.files)
            name.now bytes.now result }
        ensures cause { StoreCause self.old.faults self.new.faults result }
        ensures calls { self.new.calls ≡ one_more self.old.calls }
        ensures last { IsErrOf result StoreFault.Failed ↔ (self.new.failed ≡ true) }

        // Which calls fail; only memory may refuse the others.
        ensures fails { IsErrOf result StoreFault.Failed ↔
            (fails_next self.old.fails self.old.calls ≡ true) }

        // The other counter, and what stays.
        ensures faults { self.new.faults ≡
            next_faults self.old.fails self.old.calls self.old.faults }
        ensures kept_fails { self.new.fails ≡ self.old.fails }
    {
        if self.calls.next_fails() {
            return Err(StoreFault::Failed);
        }
        self.shelf.store(name, bytes)
    }
}
