// Bases.
ghost use Rattle.std.specs.Prelude.{◌≡◌, ◌<◌, ◌≤◌, true, not, Ok, filter, length, slice_index_or};
ghost use Rattle.std.specs.Prelude.{IfOk, IfErr, IsTrue, OnOk};
ghost use Rattle.ls_set.specs.{empty, is_good, subsets};
ghost use Rattle.ls_theory.specs.Queries.{some_breaks};
ghost use Rattle.ls_theory.specs.Bases.{base, atom_sets, based, is_atom_at};
ghost use Rattle.ls_theory.specs.Bases.{atoms_at, most_base_sets};
ghost use Rattle.ls_laws.specs.Spans.{AreOn, left_by, spanned, touches};
ghost use Rattle.ls_laws.specs.LeastSets.{IsBelow};
ghost use Rattle.ls_base.specs.Bases.{family, single_sets, own_items, IsBaseFault};
ghost use Rattle.ls_base.specs.Bases.{IsPastOf, IsOfMany};

use crate::atoms::is_atom_at;
use crate::fault::PastFault;
use crate::least::lowest_touching;
use crate::left::{base_left, some_break};
use crate::own::own_items;
use crate::reduction::base_of;
use crate::unions::union_within;
use ls_interior::Inside;
use ls_set::{ItemSet, PLACES, Query, SetList};
use ls_theory::BaseFault;
use std::alloc::{AllocError, Global};
use std::marker::Model;

/// The most sets that a base has.
pub const MOST_BASE_SETS: usize = 4096;

/// A base: sets in their order, none of which is empty or a union of others. It means the family of
/// all unions of its sets, and they are the atoms of that family.
#[derive(Drop)]
pub struct Base {
    n: u32,
    sets: Vec<ItemSet>,
    alloc: Global,
}

impl Model for Base {
    ghost use Rattle.ls_base.specs.Bases.{BaseState, IsBase};

    ghost Value = { BaseState };

    ghost view = { λ b. record { item_count = b.n; sets = b.sets.items } };

    ghost invariant = { λ b. IsBase (record { item_count = b.n; sets = b.sets.items }) };
}

// The items below `n`, each as a set.
fn single_sets(alloc: Global, n: u32) -> Result<Vec<ItemSet>, AllocError>
    requires { n ≤ PLACES }
    ensures { IfOk result (λ v. v.items ≡ single_sets n) }
{
    (0..n).map(|i| ItemSet::empty().with(i)).collect(alloc)
}

impl Base {
    // The base with the sets, unless there are too many.
    fn limited(alloc: Global, n: u32, sets: Vec<ItemSet>) -> Result<Base, PastFault>
        requires few_items { n ≤ PLACES }
        requires base { base (spanned n sets.items) ≡ sets.items }
        ensures ok { IfOk result (λ b. b ≡ record { item_count = n; sets = sets.items }) }
        ensures few { OnOk result (length sets.items ≤ most_base_sets) }
        ensures past { IfErr result (IsPastOf sets.items) }
    {
        if sets.len() > MOST_BASE_SETS {
            return Err(PastFault::Past { count: sets.len() });
        }
        Ok(Base { n, sets, alloc })
    }

    /// The base of the family of all unions of the given sets, which have items below `n` alone.
    /// The error is `NotSpanning` where an item below `n` is in no given set; otherwise `Past`,
    /// where the base has more sets than [`MOST_BASE_SETS`]; or memory ran out.
    pub fn from_sets(alloc: Global, n: u32, sets: &[ItemSet]) -> Result<Base, BaseFault>
        requires few_items { n ≤ PLACES }
        requires is_on { AreOn n sets.now }
        ensures based { IfOk result (λ b. based n sets.now ≡ Ok b.sets) }
        ensures item_count { IfOk result (λ b. b.item_count ≡ n) }
        ensures fault { IfErr result (IsBaseFault (based n sets.now)) }
    {
        let all = ItemSet::full(n);
        if let Some(item) = all.minus(union_within(sets, all)).least() {
            return Err(BaseFault::NotSpanning { item });
        }
        let given = Vec::from_slice(alloc, sets)?;
        Ok(Base::spanned_by(alloc, n, given)?)
    }

    /// The base of the family of all unions of the given sets, which have items below `n` alone; an
    /// item may be in none of them. The error is `Past` where the base has more sets than
    /// [`MOST_BASE_SETS`], which it doesn't where no more are given; or memory ran out.
    pub fn spanned_by(alloc: Global, n: u32, sets: Vec<ItemSet>) -> Result<Base, PastFault>
        requires few_items { n ≤ PLACES }
        requires is_on { AreOn n sets.items }
        ensures sets { IfOk result (λ b. b.sets ≡ base (spanned n sets.items)) }
        ensures item_count { IfOk result (λ b. b.item_count ≡ n) }
        ensures few { OnOk result (length (base (spanned n sets.items)) ≤ most_base_sets) }
        ensures past { IfErr result (IsPastOf (base (spanned n sets.items))) }
        ensures many { IfErr result (IsOfMany sets.items) }
    {
        let needed = base_of(alloc, sets)?;
        Base::limited(alloc, n, needed)
    }

    /// The base of the family of all sets of the items below `n`: each of the items alone.
    pub fn singletons(alloc: Global, n: u32) -> Result<Base, AllocError>
        requires { n ≤ PLACES }
        ensures { IfOk result (λ b. b ≡ record { item_count = n; sets = base (subsets n) }) }
    {
        let sets = base_of(alloc, single_sets(alloc, n)?)?;
        Ok(Base { n, sets, alloc })
    }

    /// The same base once more.
    pub fn copy(&self) -> Result<Base, AllocError>
        ensures { IfOk result (λ b. b ≡ self.now) }
    {
        Ok(Base {
            n: self.n,
            sets: Vec::from_slice(self.alloc, &self.sets)?,
            alloc: self.alloc,
        })
    }

    /// The base of the members that do not break the query, unless it has more sets than
    /// [`MOST_BASE_SETS`].
    pub fn after_yes(&self, r: &Query) -> Result<Base, PastFault>
        requires { is_good self.now.item_count r.now ≡ true }
        ensures sets { IfOk result (λ b. b.sets ≡ base (left_by r.now (family self.now))) }
        ensures item_count { IfOk result (λ b. b.item_count ≡ self.now.item_count) }
        ensures few { OnOk result
            (length (base (left_by r.now (family self.now))) ≤ most_base_sets) }
        ensures past { IfErr result (IsPastOf (base (left_by r.now (family self.now)))) }
    {
        let left = base_left(self.alloc, self.n, &self.sets, r)?;
        Base::limited(self.alloc, self.n, left)
    }

    /// The sets, in their order.
    pub fn sets(&self) -> &[ItemSet]
        ensures value { result.now ≡ self.now.sets }
        ensures base { base (family self.now) ≡ self.now.sets }
        ensures few { length self.now.sets ≤ most_base_sets }
        ensures few_items { self.now.item_count ≤ PLACES }
    {
        &self.sets
    }

    /// Whether a Yes to the query leaves the base as it is: no set of it breaks the query.
    pub fn is_unchanged(&self, r: &Query) -> bool
        requires { is_good self.now.item_count r.now ≡ true }
        ensures test { result ≡ not (some_breaks self.now.sets r.now) }
        ensures same { IsTrue result → base (left_by r.now (family self.now)) ≡ self.now.sets }
        ensures few { length self.now.sets ≤ most_base_sets }
    {
        !some_break(&self.sets, r)
    }

    /// Some of the sets that have an item of `items`: within each that has one lies one of them.
    pub fn lowest_touching(&self, items: ItemSet) -> Result<Vec<ItemSet>, AllocError>
        ensures below { IfOk result (λ lowest.
            IsBelow lowest.items (filter (λ k. touches k items) self.now.sets)) }
        ensures few { IfOk result (λ lowest. length lowest.items ≤ most_base_sets) }
    {
        lowest_touching(self.alloc, &self.sets, items)
    }

    /// Whether the set at a place, counted from 0, is an atom at item `q`.
    pub fn is_atom_at(&self, place: usize, q: u32) -> bool
        requires place { place < length self.now.sets }
        requires item { q < self.now.item_count }
        ensures { result
            ≡ is_atom_at (family self.now) q (slice_index_or self.now.sets place empty) }
    {
        is_atom_at(&self.sets, q, self.sets[place])
    }

    /// The items at which the set at a place, counted from 0, is an atom: there is one at least.
    pub fn own_items(&self, place: usize) -> ItemSet
        requires { place < length self.now.sets }
        ensures { result
            ≡ own_items (family self.now) (slice_index_or self.now.sets place empty) }
    {
        let set = self.sets[place];
        own_items(&self.sets[place + 1..], set)
    }

    /// Of each set, in their order, the items at which it is an atom.
    pub fn atom_sets(&self) -> Result<SetList, AllocError>
        ensures { IfOk result (λ sets. sets ≡ atom_sets (family self.now)) }
    {
        let mut sets = SetList::new(self.alloc);
        for place in 0..self.sets.len() {
            sets.push(self.own_items(place))?;
        }
        Ok(sets)
    }

    /// The atoms at item `q`, in their order.
    pub fn atoms_at(&self, q: u32) -> Result<SetList, AllocError>
        requires { q < self.now.item_count }
        ensures { IfOk result (λ atoms. atoms ≡ atoms_at (family self.now) q) }
    {
        let mut atoms = SetList::new(self.alloc);
        for set in &self.sets {
            if is_atom_at(&self.sets, q, *set) {
                atoms.push(*set)?;
            }
        }
        Ok(atoms)
    }
}

impl Inside for Base {
    ghost use Rattle.ls_base.specs.Bases.{family};
    ghost use Rattle.ls_laws.proofs.Families.{spanned-IsFamily};

    ghost item_count = { λ b. b.item_count };

    ghost members = { family };

    ghost is_family = { λ b. spanned-IsFamily b.item_count b.sets };

    fn items(&self) -> u32 {
        self.n
    }

    fn inside(&self, s: ItemSet) -> ItemSet {
        union_within(&self.sets, s)
    }
}
