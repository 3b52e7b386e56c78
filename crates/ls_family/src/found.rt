// The sets of a file so far, with their rows.
ghost use Rattle.std.specs.Prelude.{◌≡◌, ◌<◌, [], Ok, IfOk, IfErr, OnOk};
ghost use Rattle.std.specs.Map.{keys_of};
ghost use Rattle.ls_set.specs.{IsInOrder};
ghost use Rattle.ls_files.specs.SetFiles.{with_set, with_line, IsFamilyFault};

use crate::member::Member;
use ls_files::{FamilyFault, SetLine};
use ls_set::ItemSet;
use std::alloc::{AllocError, Global};
use std::collections::BTreeMap;
use std::marker::Model;

/// The most sets of a file.
pub const MOST_MEMBERS: usize = 65_536;

/// The sets of the lines so far, in the order of sets, each with the row of its line.
#[derive(Drop)]
pub(crate) struct Found {
    rows: BTreeMap<Member, usize>,
}

impl Model for Found {
    ghost use Rattle.ls_files.specs.SetFiles as files;

    ghost Value = { files.Found };

    ghost view = { λ f. f.rows.entries };
}

impl Found {
    // No set.
    pub(crate) fn new(alloc: Global) -> Found
        ensures { result ≡ [] }
    {
        Found {
            rows: BTreeMap::new(alloc),
        }
    }

    // Takes one line more. After a fault nothing is said of the sets.
    pub(crate) fn take_line(&mut self, row: usize, line: SetLine) -> Result<(), FamilyFault>
        ensures ok { OnOk result (with_line self.old row line ≡ Ok self.new) }
        ensures fault { IfErr result (IsFamilyFault (with_line self.old row line)) }
    {
        match line {
            SetLine::Passed => Ok(()),
            SetLine::Bad => Err(FamilyFault::BadLine { row }),
            SetLine::Unknown => Err(FamilyFault::UnknownItem { row }),
            SetLine::Set(set) => self.take_set(row, set),
        }
    }

    // Takes one set more.
    fn take_set(&mut self, row: usize, set: ItemSet) -> Result<(), FamilyFault>
        ensures ok { OnOk result (with_set self.old row set ≡ Ok self.new) }
        ensures fault { IfErr result (IsFamilyFault (with_set self.old row set)) }
    {
        let Ok(repeated) = self.rows.insert(Member::new(set), row) else {
            return Err(FamilyFault::Memory(AllocError));
        };
        if let Some(first) = repeated {
            return Err(FamilyFault::Repeat { row, first });
        }
        if self.rows.len() > MOST_MEMBERS {
            return Err(FamilyFault::TooMany { row });
        }
        Ok(())
    }

    // The sets, in their order.
    pub(crate) fn sets(&self, alloc: Global) -> Result<Vec<ItemSet>, AllocError>
        ensures sets { IfOk result (λ v. v.items ≡ keys_of self.now) }
        ensures in_order { IfOk result (λ v. IsInOrder v.items) }
    {
        self.rows.keys().map(|member| member.set()).collect(alloc)
    }
}
