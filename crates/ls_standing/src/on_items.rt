// Starts with their items.
ghost use Rattle.std.specs.Prelude.{◌≡◌, ◌≤◌, [], IfOk};
ghost use Rattle.ls_theory.specs.{base, compat};

use crate::start::Start;
use ls_base::Base;
use ls_interior::Inside;
use ls_set::{ItemSet, PLACES};
use std::alloc::{AllocError, Global};
use std::marker::Model;

/// A start with its number of items. It is the family of the sets that meet the start.
#[derive(Drop)]
pub struct OnItems {
    n: u32,
    start: Start,
}

impl Model for OnItems {
    ghost use Rattle.std.specs.Prelude.{◌≤◌};
    ghost use Rattle.ls_standing.specs.Starts.{StartOn, start_of, IsOnItems};

    ghost Value = { StartOn };

    ghost view = { λ s. record { item_count = s.n; start = start_of s.start } };

    ghost invariant = { λ s. IsOnItems s.n s.start };
}

impl OnItems {
    ghost use Rattle.ls_standing.specs.Starts.{start_of, IsStartOn};

    /// The start on `n` items. It takes no memory.
    pub fn new(n: u32, start: Start) -> OnItems
        requires few { n ≤ PLACES }
        requires start { IsStartOn n start }
        ensures items { result.item_count ≡ n }
        ensures start { result.start ≡ start_of start }
    {
        OnItems { n, start }
    }

    /// The base of the family.
    pub fn base(&self, alloc: Global) -> Result<Base, AllocError>
        ensures items { IfOk result (λ b. b.item_count ≡ self.now.item_count) }
        ensures sets { IfOk result (λ b.
            b.sets ≡ base (compat self.now.item_count self.now.start [])) }
    {
        self.start.base(alloc, self.n)
    }

    /// The start.
    pub fn start(&self) -> &Start
        ensures value { start_of result.now ≡ self.now.start }
        ensures on { IsStartOn self.now.item_count result.now }
    {
        &self.start
    }
}

impl Inside for OnItems {
    ghost use Rattle.ls_laws.proofs.Families.{compat-IsFamily};

    ghost item_count = { λ s. s.item_count };

    ghost members = { λ s. compat s.item_count s.start [] };

    ghost is_family = { λ s. compat-IsFamily s.item_count s.start [] };

    fn items(&self) -> u32 {
        self.n
    }

    fn inside(&self, s: ItemSet) -> ItemSet {
        self.start.inside(self.n, s)
    }

    fn outer_fringe(&self, member: ItemSet) -> ItemSet {
        self.start.outer_fringe(self.n, member)
    }
}
