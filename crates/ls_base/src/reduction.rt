// The sets of a list that are not the union of others of it.
ghost use Rattle.std.specs.Prelude.{◌≡◌, ◌≤◌, ℕ, length, IfOk, IsPermutation};
ghost use Rattle.std.specs.Ordering.{is_lt};
ghost use Rattle.std.specs.List.Sorted.{IsSortedBy};
ghost use Rattle.ls_set.specs.{IsInOrder, Items, comes_before, is_among};
ghost use Rattle.ls_theory.specs.{base};
ghost use Rattle.ls_laws.specs.Spans.{AreOn, needed, spanned};
ghost use Rattle.ls_base.specs.Sizes.{Rises};

use crate::groups::Found;
use ls_set::ItemSet;
use std::alloc::{AllocError, Global};
use std::cmp::Ordering;

// The order of sets.
fn order_of(first: ItemSet, second: ItemSet) -> Ordering
    ensures { is_lt result ≡ comes_before first second }
{
    if first.comes_before(second) {
        Ordering::Less
    } else if second.comes_before(first) {
        Ordering::Greater
    } else {
        Ordering::Equal
    }
}

fn sort(sets: &mut [ItemSet])
    ensures permutation { IsPermutation sets.old sets.new }
    ensures sorted { IsSortedBy comes_before sets.new }
{
    sets.sort_unstable_by(|first, second| order_of(*first, *second));
}

/// Puts the sets in the order of sets, and leaves each once.
pub fn put_in_order(sets: &mut Vec<ItemSet>)
    ensures in_order { IsInOrder sets.new.items }
    ensures same { (k : Items) → is_among sets.new.items k ≡ is_among sets.old.items k }
    ensures few { length sets.new.items ≤ length sets.old.items }
{
    sort(sets);
    sets.dedup();
}

// Sorts the sets by their numbers of items.
fn sort_by_size(sets: &mut [ItemSet])
    ensures permutation { IsPermutation sets.old sets.new }
    ensures rises { Rises sets.new }
{
    sets.sort_unstable_by_key(|set| set.len());
}

// The sets of a list that are not the union of the others of it within them. The list rises, so a
// set that lies within another comes before it, and is a union of those that were kept.
fn needed_by_size(alloc: Global, sets: &[ItemSet]) -> Result<Vec<ItemSet>, AllocError>
    requires rises { Rises sets.now }
    ensures { IfOk result (λ v. v.items ≡ needed sets.now) }
{
    let mut found = Found::new(alloc)?;
    for set in sets {
        if !found.has_union(*set) {
            found.push(*set)?;
        }
    }
    Ok(found.sets)
}

/// The sets of a list in order that are not the union of the others of it within them.
pub fn needed_sets(alloc: Global, sets: &[ItemSet]) -> Result<Vec<ItemSet>, AllocError>
    requires in_order { IsInOrder sets.now }
    ensures needed { IfOk result (λ v. v.items ≡ needed sets.now) }
    ensures few { IfOk result (λ v. length v.items ≤ length sets.now) }
{
    let mut by_size = Vec::from_slice(alloc, sets)?;
    sort_by_size(&mut by_size);
    let mut found = needed_by_size(alloc, &by_size)?;
    put_in_order(&mut found);
    Ok(found)
}

/// The base of the family of all unions of the sets: those that are not the union of others.
pub fn base_of(alloc: Global, sets: Vec<ItemSet>) -> Result<Vec<ItemSet>, AllocError>
    ensures base { IfOk result (λ v. (n : ℕ) → AreOn n sets.items →
        base (spanned n sets.items) ≡ v.items) }
    ensures few { IfOk result (λ v. length v.items ≤ length sets.items) }
{
    let mut sets = sets;
    put_in_order(&mut sets);
    needed_sets(alloc, &sets)
}
