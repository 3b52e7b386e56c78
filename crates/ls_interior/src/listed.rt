// Families whose sets are listed.
ghost use Rattle.std.specs.Prelude.{◌≡◌, ◌≤◌, find};
ghost use Rattle.ls_set.specs.{is_within};
ghost use Rattle.ls_laws.specs.Families.{IsFamily, IsFamily-prop};

use crate::family::Inside;
use ls_set::{ItemSet, PLACES};
use std::marker::Model;

/// A family whose sets are a borrowed list in the order. Contracts see it as the number of items
/// and the list.
#[derive(Drop)]
pub struct Listed<'a> {
    count: u32,
    sets: &'a [ItemSet],
    ghost is_family: { IsFamily count sets.now } by { IsFamily-prop count sets.now },
}

impl<'a> Model for Listed<'a> {
    ghost use Rattle.std.specs.Prelude.{◌≤◌};
    ghost use Rattle.ls_set.specs.declared.item_set.TheConstants.{PLACES};
    ghost use Rattle.std.specs.Coded.{codes};
    ghost use Rattle.ls_interior.specs.Listed.{ListedFamily, family_coded};

    ghost Value = { ListedFamily };

    ghost coded = { Prim.hlevel (family_coded, codes) };

    ghost view = { λ f. record {
      item_count = f.count;
      members = f.sets.now;
      is_family = f.is_family;
    } };

    ghost invariant = { λ f. f.count ≤ PLACES };
}

impl<'a> Listed<'a> {
    /// The family of the sets, which are in the order, closed under union, and among them the empty
    /// set; all are sets of the items below `n`.
    pub fn new(n: u32, sets: &'a [ItemSet]) -> Listed<'a>
        requires few { n ≤ PLACES }
        requires family { IsFamily n sets.now }
        ensures count { result.item_count ≡ n }
        ensures sets { result.members ≡ sets.now }
    {
        Listed { count: n, sets }
    }
}

// The first of the sets that lies within `s`.
fn first_within(sets: &[ItemSet], s: ItemSet) -> Option<ItemSet>
    ensures { result ≡ find (λ k. is_within k s) sets.now }
{
    sets.iter().copied().find(|k| k.is_within(s))
}

impl Inside for Listed<'_> {
    ghost item_count = { λ f. f.item_count };

    ghost members = { λ f. f.members };

    ghost is_family = { λ f. f.is_family };

    fn items(&self) -> u32 {
        self.count
    }

    // No set within `s` comes before it. Of the members within `s` the interior is first, since the
    // others lie within it.
    fn inside(&self, s: ItemSet) -> ItemSet {
        let from = self.sets.partition_point(|k| k.comes_before(s));
        first_within(&self.sets[from..], s).unwrap_or(ItemSet::empty())
    }
}
