// Sets in groups by their least items: what lies within a set has its least item among the set's.
ghost use Rattle.std.specs.Prelude.{◌≡◌, ◌++◌, [], ◌∷◌, IfOk, OnOk};
ghost use Rattle.ls_set.specs.{IsWithin, is_same, union};
ghost use Rattle.ls_laws.specs.Spans.{union_below};
ghost use Rattle.ls_base.specs.Sizes.{Rises, AreEmpty};

use ls_set::{ItemSet, PLACES};
use std::alloc::{AllocError, Global};

// The union of a set within `s` and those sets of the list that lie within `s` and are not `s`.
// They have fewer items, so where the list rises they stand first.
fn joined(first: ItemSet, sets: &[ItemSet], s: ItemSet) -> ItemSet
    requires rises { Rises sets.now }
    requires within { IsWithin first s }
    ensures { result ≡ union first (union_below sets.now s) }
{
    let size = s.len();
    let mut joined = first;
    for set in sets {
        if set.len() >= size {
            return joined;
        }
        if set.is_within(s) {
            joined = joined.union(*set);
            if joined == s {
                return joined;
            }
        }
    }
    joined
}

// A group for each item, with no set.
fn no_groups(alloc: Global) -> Result<Vec<Vec<ItemSet>>, AllocError>
    ensures { IfOk result (λ groups. AreEmpty groups.items) }
{
    let mut groups = Vec::new(alloc);
    for _ in 0..PLACES {
        groups.push(Vec::new(alloc))?;
    }
    Ok(groups)
}

/// Sets that rise by size, and those of each least item once more.
#[derive(Drop)]
pub struct Found {
    pub sets: Vec<ItemSet>,
    groups: Vec<Vec<ItemSet>>,
}

impl Found {
    ghost use Rattle.ls_base.specs.Groups.{IsGrouped};

    /// No set.
    pub fn new(alloc: Global) -> Result<Found, AllocError>
        ensures grouped { IfOk result IsGrouped }
        ensures none { IfOk result (λ found. found.sets.items ≡ []) }
    {
        Ok(Found {
            sets: Vec::new(alloc),
            groups: no_groups(alloc)?,
        })
    }

    /// Whether the set is the union of those of the sets that lie within it and are not the same.
    /// It isn't as soon as it has an item that no such set has whose least item is no greater.
    pub fn has_union(&self, set: ItemSet) -> bool
        requires { IsGrouped self.now }
        ensures { result ≡ is_same (union_below self.now.sets.items set) set }
    {
        let mut union = ItemSet::empty();
        let mut left = set;
        while let Some(item) = left.least() {
            left = left.without(item);
            union = joined(union, &self.groups[item as usize], set);
            if union == set {
                return true;
            }
            if !union.has(item) {
                return false;
            }
        }
        union == set
    }

    /// Appends a set, which has no fewer items than the others.
    pub fn push(&mut self, set: ItemSet) -> Result<(), AllocError>
        requires grouped { IsGrouped self.old }
        requires rises { Rises (self.old.sets.items ++ set ∷ []) }
        ensures grouped { OnOk result (IsGrouped self.new) }
        ensures sets { OnOk result (self.new.sets.items ≡ self.old.sets.items ++ set ∷ []) }
    {
        if let Some(item) = set.least() {
            self.groups[item as usize].push(set)?;
        }
        self.sets.push(set)?;
        Ok(())
    }
}
