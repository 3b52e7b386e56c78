// The base of what a Yes leaves of a space.
ghost use Rattle.std.specs.Prelude.{◌≡◌, ◌<◌, ◌≤◌, ◌++◌, true, false, map, filter, IfOk, OnOk};
ghost use Rattle.ls_set.specs.{IsInOrder, Items, is_among, is_same};
ghost use Rattle.ls_theory.specs.{base, breaks, some_breaks};
ghost use Rattle.ls_laws.specs.Spans.{left_by, spanned, union_below};
ghost use Rattle.ls_base.specs.Gains.{broken_in, broken_at, gained_at, gained_below};

use crate::least::{lowest_touching, push_joins};
use crate::own::own_items;
use crate::reduction::put_in_order;
use ls_set::{ItemSet, PLACES, Query};
use std::alloc::{AllocError, Global};

/// A base set that breaks a query, and the items at which it is an atom.
#[derive(Clone, Copy)]
pub struct Broken {
    set: ItemSet,
    items: ItemSet,
}

// Whether the set has no item of the query's A, and has its q.
#[tactic(auto, unfolding(ls_set::specs::ItemSet::is_same))]
fn breaks(set: ItemSet, r: &Query) -> bool
    requires { r.now.q < PLACES }
    ensures { result ≡ breaks set r.now }
{
    set.meet(r.a) == ItemSet::empty() && set.has(r.q)
}

/// Whether some set breaks the query.
pub fn some_break(sets: &[ItemSet], r: &Query) -> bool
    requires { r.now.q < PLACES }
    ensures { result ≡ some_breaks sets.now r.now }
{
    sets.iter().any(|set| breaks(*set, r))
}

// The sets that do not break the query.
fn staying_sets(alloc: Global, sets: &[ItemSet], r: &Query) -> Result<Vec<ItemSet>, AllocError>
    requires { r.now.q < PLACES }
    ensures { IfOk result (λ v. v.items ≡ left_by r.now sets.now) }
{
    let staying = sets.iter().copied().filter(|set| !breaks(*set, r));
    staying.collect(alloc)
}

// The set, with those of its items that no set of the list below it has.
fn broken_in(sets: &[ItemSet], set: ItemSet) -> Broken
    requires needed { is_same (union_below sets.now set) set ≡ false }
    ensures { result ≡ broken_in sets.now set }
{
    let items = own_items(sets, set);
    Broken { set, items }
}

// The sets that break the query. None is the union of those below it.
fn broken_sets(alloc: Global, sets: &[ItemSet], r: &Query) -> Result<Vec<Broken>, AllocError>
    requires place { r.now.q < PLACES }
    requires in_order { IsInOrder sets.now }
    requires needed { (k : Items) → is_among sets.now k ≡ true →
        is_same (union_below sets.now k) k ≡ false }
    ensures { IfOk result (λ v.
        v.items ≡ map (broken_in sets.now) (filter (λ k. breaks k r.now) sets.now)) }
{
    let mut broken = Vec::new(alloc);
    for place in 0..sets.len() {
        let set = sets[place];
        if breaks(set, r) {
            broken.push(broken_in(&sets[place + 1..], set))?;
        }
    }
    Ok(broken)
}

// Those that are atoms at the item.
fn broken_at(alloc: Global, broken: &[Broken], i: u32) -> Result<Vec<ItemSet>, AllocError>
    requires { i < PLACES }
    ensures { IfOk result (λ v. v.items ≡ broken_at i broken.now) }
{
    let there = broken.iter().filter(|b| b.items.has(i));
    there.map(|b| b.set).collect(alloc)
}

// Appends what is gained at the item.
fn push_gained(
    left: &mut Vec<ItemSet>,
    alloc: Global,
    staying: &[ItemSet],
    broken: &[Broken],
    near: &[ItemSet],
    i: u32,
) -> Result<(), AllocError>
    requires { i < PLACES }
    ensures { OnOk result (left.new.items
        ≡ left.old.items ++ gained_at staying.now broken.now near.now i) }
{
    let breaking = broken_at(alloc, broken, i)?;
    if breaking.is_empty() {
        return Ok(());
    }
    let there = lowest_touching(alloc, staying, ItemSet::empty().with(i))?;
    push_joins(left, &there, &breaking, near)
}

// Appends what is gained at each of the items below `n`.
fn push_all_gained(
    left: &mut Vec<ItemSet>,
    alloc: Global,
    n: u32,
    staying: &[ItemSet],
    broken: &[Broken],
    near: &[ItemSet],
) -> Result<(), AllocError>
    requires { n ≤ PLACES }
    ensures { OnOk result (left.new.items
        ≡ left.old.items ++ gained_below staying.now broken.now near.now n) }
{
    for i in 0..n {
        push_gained(left, alloc, staying, broken, near, i)?;
    }
    Ok(())
}

/// The base of the members that do not break the query, where the sets are the base of the members,
/// which have items below `n` alone.
///
/// It has the sets that do not break the query. At each item at which a set that breaks it is an
/// atom, it gains joins, each the union of such a set with one that has an item of its A: those
/// within which no other lies, and no set with the item that stays. Of the sets with an item of A,
/// and of those that stay, the ones that lie lowest suffice.
pub fn base_left(
    alloc: Global,
    n: u32,
    sets: &[ItemSet],
    r: &Query,
) -> Result<Vec<ItemSet>, AllocError>
    requires few_items { n ≤ PLACES }
    requires place { r.now.q < PLACES }
    requires base { base (spanned n sets.now) ≡ sets.now }
    ensures { IfOk result (λ left. base (left_by r.now (spanned n sets.now)) ≡ left.items) }
{
    if !some_break(sets, r) {
        return Vec::from_slice(alloc, sets);
    }
    let staying = staying_sets(alloc, sets, r)?;
    let broken = broken_sets(alloc, sets, r)?;
    let near = lowest_touching(alloc, sets, r.a)?;
    let mut left = Vec::from_slice(alloc, &staying)?;
    push_all_gained(&mut left, alloc, n, &staying, &broken, &near)?;
    put_in_order(&mut left);
    Ok(left)
}
