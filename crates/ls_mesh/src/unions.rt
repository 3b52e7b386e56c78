// Families of unions of borrowed sets.
ghost use Rattle.std.specs.Prelude.{◌≡◌, ◌≤◌};
ghost use Rattle.ls_theory.specs.{interior};

use ls_interior::Inside;
use ls_set::{ItemSet, PLACES};
use std::marker::Model;

/// The unions of borrowed sets. Contracts see the number of items and the sets.
#[derive(Drop)]
pub struct Unions<'a> {
    count: u32,
    sets: &'a [ItemSet],
}

impl<'a> Model for Unions<'a> {
    ghost use Rattle.std.specs.Prelude.{◌≤◌};
    ghost use Rattle.ls_set.specs.declared.item_set.TheConstants.{PLACES};
    ghost use Rattle.ls_base.specs.Bases.{BaseState};

    ghost Value = { BaseState };

    ghost view = { λ u. record { item_count = u.count; sets = u.sets.now } };

    ghost invariant = { λ u. u.count ≤ PLACES };
}

impl<'a> Unions<'a> {
    /// The unions of the sets that have items below `n` alone.
    pub fn new(n: u32, sets: &'a [ItemSet]) -> Unions<'a>
        requires { n ≤ PLACES }
        ensures count { result.item_count ≡ n }
        ensures sets { result.sets ≡ sets.now }
    {
        Unions { count: n, sets }
    }
}

/// The union of those sets of the list that lie within `s`.
#[tactic(auto, unfolding(ls_set::specs::ItemSet::is_same))]
pub fn union_within(sets: &[ItemSet], s: ItemSet) -> ItemSet
    ensures { result ≡ interior sets.now s }
{
    let mut union = ItemSet::empty();
    for set in sets {
        if set.is_within(s) {
            union = union.union(*set);
            if union == s {
                return union;
            }
        }
    }
    union
}

impl Inside for Unions<'_> {
    ghost use Rattle.std.specs.Prelude.{[]};
    ghost use Rattle.ls_theory.specs.{Sets};
    ghost use Rattle.ls_laws.proofs.Families.{compat-IsFamily};
    ghost use Rattle.ls_origins.specs.Meshes.{part_family};

    ghost item_count = { λ u. u.item_count };

    ghost members = { λ u. part_family u.item_count u.sets };

    ghost is_family = { λ u. compat-IsFamily u.item_count (Sets u.sets) [] };

    fn items(&self) -> u32 {
        self.count
    }

    fn inside(&self, s: ItemSet) -> ItemSet {
        union_within(self.sets, s)
    }
}
