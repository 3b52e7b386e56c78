// The items that are enough with a closed set for an item.
ghost use Rattle.std.specs.Prelude.{◌≡◌, ◌+◌, ◌<◌, ◌≤◌, ◌⊎◌, ℕ, true};
ghost use Rattle.ls_set.specs.{IsWithin, full, has, is_among, minus};
ghost use Rattle.ls_infer.specs.Narrowing.{owed};
ghost use Rattle.ls_infer.specs.Tables.{enough_for, AreStates};

use crate::narrowing::{Rest, keep_smaller, narrow};
use crate::witnesses::Witnesses;
use ls_interior::{Interior, Steps};
use ls_set::{ItemSet, PLACES};
use std::sync::ledger::Ledger;

/// The items `r` such that `q` is in the closure of the closed set with `r`, in a step for each
/// item but `q`, which is one of them.
pub fn enough_for<I: Interior, L: Ledger>(
    f: &I,
    closed: ItemSet,
    q: u32,
    steps: &mut Steps<L>,
) -> ItemSet
    requires member { is_among (I.members f.now) (minus (full (I.item_count f.now)) closed) ≡ true }
    requires item { q < I.item_count f.now }
    ensures value { result ≡ enough_for (I.item_count f.now) (I.members f.now) closed q }
    ensures cost { steps.new + 1 ≡ steps.old + I.item_count f.now }
{
    let outside = ItemSet::full(f.items()).minus(closed);
    let itself = ItemSet::empty().with(q);
    let mut enough = itself;
    for r in 0..f.items() {
        if r != q && f.interior_without(outside, r, itself, steps).is_none() {
            enough = enough.with(r);
        }
    }
    enough
}

/// The items that are enough: those that are known to be, and those of the rest that are, in a step
/// at most for each of the rest and the spare ones. What is not enough is shared: where `r` is not,
/// no item of the closure with `r` is. What shows that is kept where it is its item's turn.
pub fn enough_among<I: Interior, L: Ledger>(
    f: &I,
    closed: ItemSet,
    q: u32,
    known: ItemSet,
    rest: Rest,
    witnesses: &mut [Witnesses],
    steps: &mut Steps<L>,
) -> ItemSet
    requires item { q < I.item_count f.now }
    requires known { IsWithin known (full (I.item_count f.now)) }
    requires rest { IsWithin rest.items (full (I.item_count f.now)) }
    ensures value { is_among (I.members f.now) (minus (full (I.item_count f.now)) closed) ≡ true →
        AreStates (I.members f.now) witnesses.old → AreStates (I.members f.now) witnesses.new
        × (let enough = enough_for (I.item_count f.now) (I.members f.now) closed q in
        IsWithin known enough →
        ((r : ℕ) → has enough r ≡ true → (has known r ≡ true) ⊎ (has rest.items r ≡ true)) →
        result ≡ enough) }
    ensures within { IsWithin result (full (I.item_count f.now)) }
    ensures cost { steps.new ≤ steps.old + owed rest }
{
    let outside = ItemSet::full(f.items()).minus(closed);
    let keep = ItemSet::empty().with(q);
    let mut enough = known;
    let mut rest = rest;
    narrow(outside, q, witnesses, &mut rest);
    while let Some(r) = rest.items.least() {
        rest.items = rest.items.without(r);
        match f.interior_without(outside, r, keep, steps) {
            Some(missed) => {
                rest.leave(missed);
                keep_smaller(f, outside, q, missed, witnesses, &mut rest, steps);
            }
            None => enough = enough.with(r),
        }
    }
    enough
}

/// The items that are enough, where those that are known to be, and only items of `among` are; in a
/// step at most for each item but `q`, which always is, and one fewer where the closed set has an
/// item.
pub fn enough_between<I: Interior, L: Ledger>(
    f: &I,
    closed: ItemSet,
    q: u32,
    known: ItemSet,
    among: ItemSet,
    witnesses: &mut [Witnesses],
    steps: &mut Steps<L>,
) -> ItemSet
    requires item { q < I.item_count f.now }
    requires known { IsWithin known (full (I.item_count f.now)) }
    requires among { IsWithin among (full (I.item_count f.now)) }
    ensures value { is_among (I.members f.now) (minus (full (I.item_count f.now)) closed) ≡ true →
        AreStates (I.members f.now) witnesses.old → AreStates (I.members f.now) witnesses.new
        × (let enough = enough_for (I.item_count f.now) (I.members f.now) closed q in
        IsWithin known enough → IsWithin enough among → result ≡ enough) }
    ensures within { IsWithin result (full (I.item_count f.now)) }
    ensures cost { steps.new + 1 ≤ steps.old + I.item_count f.now }
    ensures fewer { (i : ℕ) → has closed i ≡ true → i < I.item_count f.now →
        1 < I.item_count f.now → steps.new + 2 ≤ steps.old + I.item_count f.now }
{
    let all = ItemSet::full(f.items());
    if closed.has(q) {
        return all;
    }
    let known = known.with(q);
    let items = among.minus(known).minus(closed);
    let spare = f.items().saturating_sub(items.len()).saturating_sub(2);
    let rest = Rest { items, spare };
    enough_among(f, closed, q, known, rest, witnesses, steps)
}

/// Whether the set is a state, in one step. All its items are below `f.items()`.
pub fn is_state<I: Interior, L: Ledger>(f: &I, s: ItemSet, steps: &mut Steps<L>) -> bool
    requires { IsWithin s (full (I.item_count f.now)) }
    ensures value { result ≡ is_among (I.members f.now) s }
    ensures cost { steps.new ≡ steps.old + 1 }
{
    s.is_within(f.interior(s, steps))
}
