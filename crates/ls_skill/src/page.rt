// Pages of the sets whose complements are members.
ghost use Rattle.std.specs.Prelude.{◌≡◌, ◌+◌, ◌*◌, ◌≤◌, find, IfOk};
ghost use Rattle.std.specs.Option.{ForSome};
ghost use Rattle.ls_set.specs.ItemSet.{full, comes_before, IsWithin};
ghost use Rattle.ls_theory.specs.Pages.{page, comes_after};
ghost use Rattle.ls_origins.specs.Skills.{duals};

use crate::next::next_dual;
use ls_interior::{Interior, Steps};
use ls_set::{ItemSet, SetList};
use ls_theory::Listing;
use std::alloc::{AllocError, Global};
use std::sync::ledger::Ledger;

// The first of the sets after the cursor, or of all.
fn first_dual<I: Interior, L: Ledger>(
    f: &I,
    cursor: Option<ItemSet>,
    steps: &mut Steps<L>,
) -> Option<ItemSet>
    requires { ForSome cursor (λ w. IsWithin w (full (I.item_count f.now))) }
    ensures first { result ≡ find (comes_after comes_before cursor)
        (duals (I.item_count f.now) (I.members f.now)) }
    ensures small { ForSome result (λ k. IsWithin k (full (I.item_count f.now))) }
    ensures cost { steps.new ≤ steps.old + 2 * I.item_count f.now }
{
    match cursor {
        None => Some(ItemSet::full(f.items())),
        Some(word) => next_dual(f, word, steps),
    }
}

/// The first `k` sets whose complements are members that come after the given set, or of all, and
/// whether a further one follows. The given set is one of the family's items and need not be one
/// of them.
pub fn page_dual<I: Interior, L: Ledger>(
    alloc: Global,
    f: &I,
    after: Option<ItemSet>,
    k: u32,
    steps: &mut Steps<L>,
) -> Result<Listing, AllocError>
    requires { ForSome after (λ w. IsWithin w (full (I.item_count f.now))) }
    ensures sets { IfOk result (λ l. l.sets
        ≡ (page comes_before (duals (I.item_count f.now) (I.members f.now)) after k).members) }
    ensures more { IfOk result (λ l. l.more
        ≡ (page comes_before (duals (I.item_count f.now) (I.members f.now)) after k).more) }
    ensures cost { steps.new ≤ steps.old + (k + 1) * (2 * I.item_count f.now) }
{
    let mut sets = SetList::new(alloc);
    let mut cursor = after;
    for _given in 0..k {
        let Some(set) = first_dual(f, cursor, steps) else {
            return Ok(Listing { sets, more: false });
        };
        sets.push(set)?;
        cursor = Some(set);
    }
    let more = first_dual(f, cursor, steps).is_some();
    Ok(Listing { sets, more })
}
