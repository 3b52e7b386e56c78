// Closures of block sets, each from that of the set without one of its items.
ghost use Rattle.std.specs.Prelude.{◌≡◌, ◌+◌, ◌<◌, ◌≤◌, ℕ, true, List};
ghost use Rattle.ls_set.specs.{IsWithin, Items, empty, full, has, with};
ghost use Rattle.ls_theory.specs.{closure};
ghost use Rattle.ls_infer.specs.BlockClosures.{IsKeptClosure, AreFirst};

use ls_interior::{Interior, Steps, closure};
use ls_query::{BlockWalk, Blocks};
use ls_set::ItemSet;
use std::sync::ledger::Ledger;

/// A set and its closure, or the empty set and nothing more.
#[derive(Clone, Copy)]
pub struct KeptClosure {
    pub set: ItemSet,
    pub closed: ItemSet,
}

impl KeptClosure {
    /// The empty set.
    pub fn new() -> KeptClosure
        ensures set { result.set ≡ empty }
        ensures kept { (n : ℕ) (f : List Items) → IsKeptClosure n f result }
    {
        KeptClosure {
            set: ItemSet::empty(),
            closed: ItemSet::empty(),
        }
    }
}

// The closure of a set, where it is the one that is kept so far, or else is among the first ones.
fn kept_closure_of(
    first: &[ItemSet],
    blocks: Blocks,
    set: ItemSet,
    kept: KeptClosure,
) -> KeptClosure
    ensures set { (i : ℕ) → has result.set i ≡ true → result.set ≡ set }
    ensures kept { (f : List Items) → AreFirst blocks.item_count f blocks first.now →
        IsKeptClosure blocks.item_count f kept → IsKeptClosure blocks.item_count f result }
{
    if kept.set == set {
        return kept;
    }
    let Some(place) = blocks.place_of(set) else {
        return KeptClosure::new();
    };
    match first.get(place as usize) {
        Some(closed) => KeptClosure {
            set,
            closed: *closed,
        },
        None => KeptClosure::new(),
    }
}

// The closure of a set with an item, from the closure of the set, in a step at most.
fn close_with<I: Interior, L: Ledger>(
    f: &I,
    closed: ItemSet,
    item: u32,
    steps: &mut Steps<L>,
) -> ItemSet
    requires item { item < I.item_count f.now }
    ensures value { (set : Items) → IsWithin set (full (I.item_count f.now)) →
        closed ≡ closure (full (I.item_count f.now)) (I.members f.now) set →
        result ≡ closure (full (I.item_count f.now)) (I.members f.now) (with set item) }
    ensures within { IsWithin result (full (I.item_count f.now)) }
    ensures cost { steps.new ≤ steps.old + 1 }
{
    let all = ItemSet::full(f.items());
    let outside = all.minus(closed);
    if !outside.has(item) {
        return all.minus(outside);
    }
    let left = f.interior_without(outside, item, ItemSet::empty(), steps);
    all.minus(left.unwrap_or(ItemSet::empty()))
}

/// The closure of the set that the walk has come to, in a step at most. `first` has the closures of
/// the first sets of the blocks. The set without its greatest item comes before it; where its
/// closure is among the first, or is kept from the set before, only what the item brings is looked
/// for.
pub fn close_block<I: Interior, L: Ledger>(
    first: &[ItemSet],
    blocks: Blocks,
    walk: &BlockWalk,
    f: &I,
    kept: &mut KeptClosure,
    steps: &mut Steps<L>,
) -> ItemSet
    requires walk { walk.now.blocks ≡ blocks }
    requires items { I.item_count f.now ≡ blocks.item_count }
    ensures value { AreFirst blocks.item_count (I.members f.now) blocks first.now →
        IsKeptClosure blocks.item_count (I.members f.now) kept.old →
        result ≡ closure (full (I.item_count f.now)) (I.members f.now) walk.now.set }
    ensures kept { AreFirst blocks.item_count (I.members f.now) blocks first.now →
        IsKeptClosure blocks.item_count (I.members f.now) kept.old →
        IsKeptClosure blocks.item_count (I.members f.now) kept.new }
    ensures within { IsWithin result (full (I.item_count f.now)) }
    ensures cost { steps.new ≤ steps.old + 1 }
{
    let Some(item) = walk.greatest() else {
        return closure(f, walk.set(), steps);
    };
    *kept = kept_closure_of(first, blocks, walk.others(), *kept);
    if kept.set.least().is_none() {
        return closure(f, walk.set(), steps);
    }
    close_with(f, kept.closed, item, steps)
}
