// The family of all sets.
ghost use Rattle.std.specs.Prelude.{◌≡◌, ◌≤◌};

use crate::family::Inside;
use ls_set::{ItemSet, PLACES};
use std::marker::Model;

/// The family of all sets of the items below a number, as which contracts see it.
#[derive(Clone, Copy, PartialEq, Eq)]
pub struct Free {
    count: u32,
}

impl Model for Free {
    ghost use Rattle.std.specs.Prelude.{ℕ, ◌≤◌};
    ghost use Rattle.ls_set.specs.declared.item_set.TheConstants.{PLACES};

    ghost Value = { ℕ };

    ghost view = { λ a. a.count };

    ghost invariant = { λ a. a.count ≤ PLACES };

    ghost inverse = { λ n. record { count = n } };
}

impl Free {
    /// All sets of the items below `n`.
    pub fn new(n: u32) -> Free
        requires { n ≤ PLACES }
        ensures { result ≡ n }
    {
        Free { count: n }
    }
}

impl Inside for Free {
    ghost use Rattle.ls_set.specs.{subsets};
    ghost use Rattle.ls_laws.proofs.Families.{subsets-IsFamily};

    ghost item_count = { λ f. f };

    ghost members = { subsets };

    ghost is_family = { subsets-IsFamily };

    fn items(&self) -> u32 {
        self.count
    }

    fn inside(&self, s: ItemSet) -> ItemSet {
        s
    }

    fn outer_fringe(&self, member: ItemSet) -> ItemSet {
        ItemSet::full(self.count).minus(member)
    }
}
