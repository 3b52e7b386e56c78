// Pages of a family, and the whole of it.
ghost use Rattle.std.specs.Prelude.{◌≡◌, ◌+◌, ◌*◌, ◌<◌, ◌≤◌, ℕ, false, List, length, sum};
ghost use Rattle.std.specs.Prelude.{Option, None, IfOk, OnOk};
ghost use Rattle.std.specs.List.{last_or};
ghost use Rattle.std.specs.Option.{ForSome};
ghost use Rattle.ls_set.specs.{IsInOrder, IsWithin, Items, comes_before, full};
ghost use Rattle.ls_theory.specs.{page};
ghost use Rattle.ls_enum.specs.Listings.{joined_pages};

use crate::list_fault::ListFault;
use crate::states::States;
use ls_interior::{Interior, Steps};
use ls_set::{ItemSet, SetList};
use ls_theory::Listing;
use std::alloc::{AllocError, Global};
use std::sync::ledger::Ledger;

/// The first `k` members that come after the given set, or of all, and whether a further one
/// follows. The given set is one of the family's items and need not be a member.
pub fn page<I: Interior, L: Ledger>(
    alloc: Global,
    f: &I,
    after: Option<ItemSet>,
    k: u32,
    steps: &mut Steps<L>,
) -> Result<Listing, AllocError>
    requires { ForSome after (λ w. IsWithin w (full (I.item_count f.now))) }
    ensures sets { IfOk result (λ l.
        l.sets ≡ (page comes_before (I.members f.now) after k).members) }
    ensures more { IfOk result (λ l.
        l.more ≡ (page comes_before (I.members f.now) after k).more) }
    ensures cost { steps.new ≤ steps.old + (k + 1) * (I.item_count f.now + 1) }
{
    let mut sets = SetList::new(alloc);
    let mut states = States::new(f, after, steps);
    for _given in 0..k {
        let Some(set) = states.next() else {
            return Ok(Listing { sets, more: false });
        };
        sets.push(set)?;
    }
    let more = states.next().is_some();
    Ok(Listing { sets, more })
}

/// All members, or `More` where there are more than `max` and memory lasts.
pub fn list_all<I: Interior, L: Ledger>(
    alloc: Global,
    f: &I,
    max: u32,
    steps: &mut Steps<L>,
) -> Result<SetList, ListFault>
    ensures members { IfOk result (λ sets. sets ≡ I.members f.now) }
    ensures fits { OnOk result (length (I.members f.now) ≤ max) }
    ensures more { result ≡ Err ListFault.More → max < length (I.members f.now) }
    ensures cost { steps.new ≤ steps.old + (max + 1) * (I.item_count f.now + 1) }
{
    let listing = page(alloc, f, None, max, steps)?;
    if listing.more {
        return Err(ListFault::More);
    }
    Ok(listing.sets)
}

/// Pages that are joined by their last sets are one page of all their sizes, and the whole family
/// where nothing follows them. It does nothing when it runs.
pub fn pages_join()
    ensures joined { (f : List Items) (after : Option Items) (sizes : List ℕ) → IsInOrder f →
        joined_pages f after sizes ≡ (page comes_before f after (sum sizes)).members }
    ensures more { (f : List Items) (after : Option Items) (j k : ℕ) → IsInOrder f →
        (page comes_before f (last_or after (page comes_before f after j).members) k).more ≡
        (page comes_before f after (j + k)).more }
    ensures whole { (f : List Items) (sizes : List ℕ) → IsInOrder f →
        (page comes_before f None (sum sizes)).more ≡ false → joined_pages f None sizes ≡ f }
{}
