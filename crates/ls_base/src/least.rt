// Sets of a list that lie lowest, and the least joins of two lists.
ghost use Rattle.std.specs.Prelude.{◌≡◌, ◌≤◌, ◌&&◌, ◌++◌, map, filter, length};
ghost use Rattle.std.specs.Prelude.{IfOk, OnOk};
ghost use Rattle.std.specs.List.{list_any};
ghost use Rattle.ls_set.specs.{is_same, is_within, union};
ghost use Rattle.ls_laws.specs.Spans.{is_proper, joins, touches};
ghost use Rattle.ls_laws.specs.LeastSets.{IsBelow};
ghost use Rattle.ls_base.specs.Gains.{least_size, is_gained};

use crate::unions::is_proper;
use ls_set::ItemSet;
use std::alloc::{AllocError, Global};

// Whether some set of the list lies within the set.
fn has_within(sets: &[ItemSet], set: ItemSet) -> bool
    ensures { result ≡ list_any (λ l. is_within l set) sets.now }
{
    sets.iter().any(|l| l.is_within(set))
}

// Whether the two have an item in common.
#[tactic(auto, unfolding(ls_set::specs::ItemSet::is_same))]
fn touches(set: ItemSet, other: ItemSet) -> bool
    ensures { result ≡ touches set other }
{
    set.meet(other) != ItemSet::empty()
}

/// Some of the sets that have an item of `items`: within each that has one lies one of them.
/// They are few where sets stand behind those that they lie within, as in the order of sets.
pub fn lowest_touching(
    alloc: Global,
    sets: &[ItemSet],
    items: ItemSet,
) -> Result<Vec<ItemSet>, AllocError>
    ensures below { IfOk result (λ lowest.
        IsBelow lowest.items (filter (λ k. touches k items) sets.now)) }
    ensures few { IfOk result (λ lowest. length lowest.items ≤ length sets.now) }
{
    let mut lowest = Vec::new(alloc);
    for place in (0..sets.len()).rev() {
        let set = sets[place];
        if touches(set, items) && !has_within(&lowest, set) {
            lowest.push(set)?;
        }
    }
    Ok(lowest)
}

// Whether a union of the set with one of `near` lies within `k`, and is not the same.
fn has_union_below(set: ItemSet, near: &[ItemSet], k: ItemSet) -> bool
    ensures { result ≡ list_any (λ g. is_proper (union set g) k) near.now }
{
    near.iter().any(|g| is_proper(set.union(*g), k))
}

// Whether a join does, of which none is formed with a set that does not lie within `k`.
fn has_join_below(sets: &[ItemSet], near: &[ItemSet], k: ItemSet) -> bool
    ensures { result ≡ list_any (λ set.
        is_within set k && list_any (λ g. is_proper (union set g) k) near.now) sets.now }
{
    sets.iter()
        .any(|set| set.is_within(k) && has_union_below(*set, near, k))
}

// The least number of items of a union of the set with one of `near`, or `most` where that is less.
fn least_union(most: u32, set: ItemSet, near: &[ItemSet]) -> u32
    ensures { result ≡ least_size most (map (union set) near.now) }
{
    let mut least = most;
    for other in near {
        least = least.min(set.union(*other).len());
    }
    least
}

// The least number of items of a join, or the largest number where there is none.
fn least_join(sets: &[ItemSet], near: &[ItemSet]) -> u32
    ensures { result ≡ least_size u32.MAX (joins sets.now near.now) }
{
    let mut least = u32::MAX;
    for set in sets {
        least = least_union(least, *set, near);
    }
    least
}

// Whether no set of `staying` and no other join lies within `k`. Where `k` has no more items than
// each of the joins, no other join does.
fn is_gained(
    staying: &[ItemSet],
    sets: &[ItemSet],
    near: &[ItemSet],
    least: u32,
    k: ItemSet,
) -> bool
    requires { least ≡ least_size u32.MAX (joins sets.now near.now) }
    ensures { result ≡ is_gained staying.now sets.now near.now k }
{
    !has_within(staying, k) && (k.len() <= least || !has_join_below(sets, near, k))
}

// Appends those unions of the set with one of `near` that are gained.
fn push_unions(
    gained: &mut Vec<ItemSet>,
    staying: &[ItemSet],
    sets: &[ItemSet],
    near: &[ItemSet],
    least: u32,
    set: ItemSet,
) -> Result<(), AllocError>
    requires { least ≡ least_size u32.MAX (joins sets.now near.now) }
    ensures { OnOk result (gained.new.items ≡ gained.old.items
        ++ filter (is_gained staying.now sets.now near.now) (map (union set) near.now)) }
{
    for other in near {
        let joined = set.union(*other);
        if is_gained(staying, sets, near, least, joined) {
            gained.push(joined)?;
        }
    }
    Ok(())
}

/// Appends the joins of a set of `sets` with one of `near` within which no other join lies, and
/// none of `staying`.
pub fn push_joins(
    gained: &mut Vec<ItemSet>,
    staying: &[ItemSet],
    sets: &[ItemSet],
    near: &[ItemSet],
) -> Result<(), AllocError>
    ensures { OnOk result (gained.new.items ≡ gained.old.items
        ++ filter (is_gained staying.now sets.now near.now) (joins sets.now near.now)) }
{
    let least = least_join(sets, near);
    for set in sets {
        push_unions(gained, staying, sets, near, least, *set)?;
    }
    Ok(())
}
