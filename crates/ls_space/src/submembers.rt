// The base of a family, by unions of proper submembers.
ghost use Rattle.std.specs.Prelude.{◌≡◌, ◌<◌, length, IfOk};
ghost use Rattle.ls_set.specs.{IsInOrder, is_same};
ghost use Rattle.ls_theory.specs.{interior};
ghost use Rattle.ls_laws.specs.Spans.{needed};
ghost use Rattle.ls_space.specs.NextSets.{is_union_of_next, unions_of_next};

use ls_base::needed_sets;
use ls_set::ItemSet;
use rayon::prelude::*;
use std::alloc::{AllocError, Global};
use std::thread::Threads;

// How many sets after a set are looked at, before the base sets are.
const NEXT: usize = 32;

// How few sets are worth a thread of their own.
const LEAST_PIECE: usize = 4096;

// Whether the set is the union of those of the sets that lie within it.
#[tactic(auto, unfolding(ls_set::specs::ItemSet::is_same))]
fn is_union_of(sets: &[ItemSet], set: ItemSet) -> bool
    ensures { result ≡ is_same (interior sets.now set) set }
{
    let mut union = ItemSet::empty();
    for other in sets {
        if other.is_within(set) {
            union = union.union(*other);
            if union == set {
                return true;
            }
        }
    }
    union == set
}

// Whether the set at the place is the union of those of the next sets that lie within it. In a
// family all sets after it are others, so these are proper submembers of it.
fn is_union_of_next(sets: &[ItemSet], place: usize) -> bool
    requires { place < length sets.now }
    ensures { result ≡ is_union_of_next sets.now place }
{
    let after = &sets[place + 1..];
    is_union_of(&after[..NEXT.min(after.len())], sets[place])
}

// The same of each place, by a thread for each processor where the sets are many.
fn unions_of_next<R: Threads + Sync>(
    rt: &R,
    alloc: Global,
    sets: &[ItemSet],
) -> Result<Vec<bool>, AllocError>
    ensures { IfOk result (λ v. v.items ≡ unions_of_next sets.now) }
{
    (0..sets.len())
        .into_par_iter()
        .with_min_len(LEAST_PIECE)
        .map(
            |place: usize| -> bool
                requires { place < length sets.now }
                ensures { result ≡ is_union_of_next sets.entry.now place }
            { is_union_of_next(sets, place) },
        )
        .collect(rt, alloc)
}

// The sets that are not told to be unions. What is told is a union of later ones that are not.
fn sets_left(alloc: Global, sets: &[ItemSet], unions: &[bool]) -> Result<Vec<ItemSet>, AllocError>
    requires in_order { IsInOrder sets.now }
    requires unions { unions.now ≡ unions_of_next sets.now }
    ensures in_order { IfOk result (λ v. IsInOrder v.items) }
    ensures needed { IfOk result (λ v. needed v.items ≡ needed sets.now) }
{
    let mut left = Vec::new(alloc);
    for place in 0..sets.len() {
        if !unions[place] {
            left.push(sets[place])?;
        }
    }
    Ok(left)
}

/// The sets of a family that are not the union of others of it.
pub fn base_sets<R: Threads + Sync>(
    rt: &R,
    alloc: Global,
    sets: &[ItemSet],
) -> Result<Vec<ItemSet>, AllocError>
    requires in_order { IsInOrder sets.now }
    ensures { IfOk result (λ v. v.items ≡ needed sets.now) }
{
    let unions = unions_of_next(rt, alloc, sets)?;
    let left = sets_left(alloc, sets, &unions)?;
    needed_sets(alloc, &left)
}
