// The next member, by interiors alone.
ghost use Rattle.std.specs.Prelude.{◌≡◌, ◌+◌, ◌<◌, ◌≤◌, List, find, slice_get, IfSome};
ghost use Rattle.std.specs.Option.{ForSome};
ghost use Rattle.ls_set.specs.{IsWithin, Items, comes_before, full, keep_before};
ghost use Rattle.ls_theory.specs.{comes_after};
ghost use Rattle.ls_interior.specs.Keeping.{interior_keeping};
ghost use Rattle.ls_enum.specs.Listings.{filled_above, first_after};
ghost use Rattle.ls_enum.specs.Widest.{AreWidest, Serves};

use crate::forward::fill;
use crate::widest::{WidestMember, WidestMembers};
use ls_interior::{Interior, Steps};
use ls_set::{ItemSet, PLACES};
use std::sync::ledger::Ledger;

/// The first member, in one step.
pub fn first<I: Interior, L: Ledger>(f: &I, steps: &mut Steps<L>) -> ItemSet
    ensures first { slice_get (I.members f.now) 0 ≡ Some result }
    ensures small { IsWithin result (full (I.item_count f.now)) }
    ensures cost { steps.new ≡ steps.old + 1 }
{
    f.interior(ItemSet::full(f.items()), steps)
}

/// The first member that comes after `word`, or `None` where no member does. The word is a set of
/// the family's items and need not be a member. It takes no memory, and at most one step more than
/// there are items.
pub fn next_after<I: Interior, L: Ledger>(
    f: &I,
    word: ItemSet,
    steps: &mut Steps<L>,
) -> Option<ItemSet>
    requires { IsWithin word (full (I.item_count f.now)) }
    ensures next { result ≡ first_after word (I.members f.now) }
    ensures small { ForSome result (λ k. IsWithin k (full (I.item_count f.now))) }
    ensures cost { steps.new ≤ steps.old + (I.item_count f.now + 1) }
{
    let mut widest = WidestMembers::none();
    next_by(f, word, &mut widest, steps)
}

// The same by widest members, to which that of the answer is added.
//
// For each item of the word, from the greatest down, the items before it are kept and all items
// after it let in. The first interior of such a set that has all that was kept is the answer. Where
// there are no widest members yet they are made first, which tells from which item on none would
// have it. A widest member that serves at an item serves at those before it, down to its place.
fn next_by<I: Interior, L: Ledger>(
    f: &I,
    word: ItemSet,
    widest: &mut WidestMembers,
    steps: &mut Steps<L>,
) -> Option<ItemSet>
    requires small { IsWithin word (full (I.item_count f.now)) }
    requires widest { AreWidest (I.members f.now) widest.old.held.items }
    ensures next { result ≡ first_after word (I.members f.now) }
    ensures small { ForSome result (λ k. IsWithin k (full (I.item_count f.now))) }
    ensures widest { AreWidest (I.members f.now) widest.new.held.items }
    ensures cost { steps.new ≤ steps.old + (I.item_count f.now + 1) }
{
    let end = fill(f, word, widest, steps);
    let mut serving = None;
    for i in (0..end).rev() {
        if word.has(i) {
            if let Some(inside) = inside_filled(f, word, i, widest, &mut serving, steps) {
                widest.push(i + 1, inside);
                return Some(inside);
            }
        }
    }
    None
}

// The widest member from which item `i` is tried: the one that served at the items after it, if its
// place is not above `i`, or else the newest whose items before `i` are those that are kept.
fn serving_at(
    widest: &mut WidestMembers,
    serving: Option<WidestMember>,
    i: u32,
    keep: ItemSet,
) -> Option<WidestMember>
    requires { i ≤ PLACES }
    ensures serves { (f : List Items) (word : Items) → AreWidest f widest.old.held.items →
        IfSome serving (Serves f word i) → keep ≡ keep_before word i →
        IfSome result (λ m. Serves f word i m × (m.place ≤ i)) }
    ensures others { (f : List Items) → AreWidest f widest.old.held.items →
        AreWidest f widest.new.held.items }
{
    if let Some(member) = serving {
        if member.place <= i {
            return Some(member);
        }
    }
    widest.at(i, keep)
}

// The interior of the items of the word before `i` and all items after it, where it has all that
// was kept, in one step. With a widest member it is that of a member without an item.
fn inside_filled<I: Interior, L: Ledger>(
    f: &I,
    word: ItemSet,
    i: u32,
    widest: &mut WidestMembers,
    serving: &mut Option<WidestMember>,
    steps: &mut Steps<L>,
) -> Option<ItemSet>
    requires small { IsWithin word (full (I.item_count f.now)) }
    requires item { i < I.item_count f.now }
    requires widest { AreWidest (I.members f.now) widest.old.held.items }
    requires serves { IfSome serving.old (Serves (I.members f.now) word i) }
    ensures value { result ≡ interior_keeping (I.members f.now)
        (filled_above (I.item_count f.now) word i) (keep_before word i) }
    ensures widest { AreWidest (I.members f.now) widest.new.held.items }
    ensures serves { IfSome serving.new (Serves (I.members f.now) word i) }
    ensures cost { steps.new ≡ steps.old + 1 }
{
    let n = f.items();
    let keep = word.keep_before(i);
    *serving = serving_at(widest, *serving, i, keep);
    if let Some(widest_member) = *serving {
        return f.interior_without(widest_member.member, i, keep, steps);
    }
    let inside = f.interior(filled_above(word, i, n), steps);
    if keep.is_within(inside) {
        Some(inside)
    } else {
        None
    }
}

// The items of the word before `i`, and all items after it.
fn filled_above(word: ItemSet, i: u32, n: u32) -> ItemSet
    requires within { i < n }
    requires few { n ≤ PLACES }
    ensures { result ≡ filled_above n word i }
{
    word.keep_before(i)
        .union(ItemSet::full(n).minus(ItemSet::full(i + 1)))
}

// The first member after the cursor, or of all.
pub fn first_left<I: Interior, L: Ledger>(
    f: &I,
    cursor: Option<ItemSet>,
    steps: &mut Steps<L>,
) -> Option<ItemSet>
    requires { ForSome cursor (λ w. IsWithin w (full (I.item_count f.now))) }
    ensures first { result ≡ find (comes_after comes_before cursor) (I.members f.now) }
    ensures small { ForSome result (λ k. IsWithin k (full (I.item_count f.now))) }
    ensures cost { steps.new ≤ steps.old + (I.item_count f.now + 1) }
{
    let mut widest = WidestMembers::none();
    first_left_by(f, cursor, &mut widest, steps)
}

// The same by widest members, to which that of the answer is added.
pub(crate) fn first_left_by<I: Interior, L: Ledger>(
    f: &I,
    cursor: Option<ItemSet>,
    widest: &mut WidestMembers,
    steps: &mut Steps<L>,
) -> Option<ItemSet>
    requires small { ForSome cursor (λ w. IsWithin w (full (I.item_count f.now))) }
    requires widest { AreWidest (I.members f.now) widest.old.held.items }
    ensures first { result ≡ find (comes_after comes_before cursor) (I.members f.now) }
    ensures small { ForSome result (λ k. IsWithin k (full (I.item_count f.now))) }
    ensures widest { AreWidest (I.members f.now) widest.new.held.items }
    ensures cost { steps.new ≤ steps.old + (I.item_count f.now + 1) }
{
    match cursor {
        None => {
            let greatest = first(f, steps);
            widest.push(0, greatest);
            Some(greatest)
        }
        Some(word) => next_by(f, word, widest, steps),
    }
}
