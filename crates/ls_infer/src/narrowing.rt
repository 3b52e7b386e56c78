// What may still be enough, as states tell it.
ghost use Rattle.std.specs.Prelude.{◌≡◌, ◌+◌, ◌<◌, ◌≤◌, ℕ, true, List};
ghost use Rattle.ls_set.specs.{IsWithin, Items, full, has, is_among, meet};
ghost use Rattle.ls_laws.specs.Families.{IsFamily};
ghost use Rattle.ls_infer.specs.Narrowing.{owed, IsNarrowed};
ghost use Rattle.ls_infer.specs.Tables.{AreStates};

use crate::witnesses::{Witnesses, keep_witness, take_turn};
use ls_interior::{Interior, Steps};
use ls_set::{ItemSet, PLACES};
use std::sync::ledger::Ledger;

/// With how many items of a state the item of a No falls before no more are tried.
const MOST_MISSES: u32 = 2;

/// The items that may still be enough, and the steps that may be taken beside one for each of them.
#[derive(Clone, Copy)]
pub struct Rest {
    pub items: ItemSet,
    pub spare: u32,
}

impl Rest {
    /// Leaves out the items that a set lacks. Their steps can be spared.
    pub fn leave(&mut self, set: ItemSet)
        ensures items { self.new.items ≡ meet self.old.items set }
        ensures fewer { owed self.new ≤ owed self.old }
    {
        let left = self.items.meet(set);
        self.spare = self.spare.saturating_add(self.items.len() - left.len());
        self.items = left;
    }
}

// Whether a state shows that an item of the rest is not enough.
fn is_of_use(state: ItemSet, outside: ItemSet, q: u32, rest: ItemSet) -> bool
    requires { q < PLACES }
    ensures item { result ≡ true → has state q ≡ true }
    ensures within { result ≡ true → IsWithin state outside }
{
    !rest.is_within(state) && state.has(q) && state.is_within(outside)
}

/// Leaves out of the rest what the states that are kept for `q` show not to be enough: what those
/// lack that lie within `outside`. It takes no step.
pub fn narrow(outside: ItemSet, q: u32, witnesses: &[Witnesses], rest: &mut Rest)
    requires { q < PLACES }
    ensures narrowed { (n : ℕ) (f : List Items) → IsFamily n f → AreStates f witnesses.now →
        IsNarrowed n f outside q rest.old.items rest.new.items }
    ensures part { IsWithin rest.new.items rest.old.items }
    ensures fewer { owed rest.new ≤ owed rest.old }
{
    let Some(kept) = witnesses.get(q as usize) else {
        return;
    };
    for state in kept.states() {
        if is_of_use(*state, outside, q, rest.items) {
            rest.leave(*state);
        }
    }
}

// A state with `q` within the given one that lacks more of the rest, where one is found by taking
// out one item of the rest after another; where `q` falls with some of them, no more are tried.
// What it lacks is left out of the rest.
fn lessen<I: Interior, L: Ledger>(
    f: &I,
    outside: ItemSet,
    q: u32,
    state: ItemSet,
    rest: &mut Rest,
    steps: &mut Steps<L>,
) -> ItemSet
    requires within { IsWithin outside (full (I.item_count f.now)) }
    requires part { IsWithin state outside }
    requires item { q < PLACES }
    ensures narrowed { let n = I.item_count f.now in is_among (I.members f.now) state ≡ true →
        IsNarrowed n (I.members f.now) outside q rest.old.items rest.new.items }
    ensures member { is_among (I.members f.now) state ≡ true →
        is_among (I.members f.now) result ≡ true }
    ensures part { IsWithin rest.new.items rest.old.items }
    ensures cost { steps.new + owed rest.new ≤ steps.old + owed rest.old }
{
    let keep = ItemSet::empty().with(q);
    let mut state = state;
    let mut left = rest.items;
    let mut misses = 0;
    while rest.spare > 0 && misses < MOST_MISSES {
        let Some(item) = left.least() else {
            return state;
        };
        left = left.without(item);
        rest.spare -= 1;
        match f.interior_without(state, item, keep, steps) {
            Some(smaller) => {
                left = left.meet(smaller);
                rest.leave(smaller);
                state = smaller;
            }
            None => misses += 1,
        }
    }
    state
}

/// Keeps a state within the given one among the witnesses, made smaller, where it is still `q`'s
/// turn. What the kept one lacks is left out of the rest.
pub fn keep_smaller<I: Interior, L: Ledger>(
    f: &I,
    outside: ItemSet,
    q: u32,
    state: ItemSet,
    witnesses: &mut [Witnesses],
    rest: &mut Rest,
    steps: &mut Steps<L>,
)
    requires within { IsWithin outside (full (I.item_count f.now)) }
    requires part { IsWithin state outside }
    requires item { q < PLACES }
    ensures narrowed { let n = I.item_count f.now in is_among (I.members f.now) state ≡ true →
        IsNarrowed n (I.members f.now) outside q rest.old.items rest.new.items }
    ensures part { IsWithin rest.new.items rest.old.items }
    ensures states { is_among (I.members f.now) state ≡ true →
        AreStates (I.members f.now) witnesses.old → AreStates (I.members f.now) witnesses.new }
    ensures cost { steps.new + owed rest.new ≤ steps.old + owed rest.old }
{
    if take_turn(witnesses, q) {
        let smaller = lessen(f, outside, q, state, rest, steps);
        keep_witness(witnesses, smaller, q);
    }
}
