// What is known of closures of single items, where those of the sets of blocks are kept.
ghost use Rattle.std.specs.Prelude.{◌≡◌, ◌<◌, ℕ, true, List, map};
ghost use Rattle.ls_set.specs.{IsWithin, Items, full, has, single};
ghost use Rattle.ls_theory.specs.{blocks, closure};

use ls_set::{ItemSet, PLACES};

// The closure of an item alone, where it is kept, or else the empty set. The sets of one item are
// the first of the blocks, in the order of items.
fn closed_alone(closures: &[ItemSet], item: u32) -> ItemSet
    ensures { (n k : ℕ) (f : List Items) → item < n →
        closures.now ≡ map (closure (full n) f) (blocks n k) → (i : ℕ) →
        has result i ≡ true → has (closure (full n) f (single item)) i ≡ true }
{
    match closures.get(item as usize) {
        Some(closed) => *closed,
        None => ItemSet::empty(),
    }
}

/// The items of a set whose closures, each of the item alone, are kept and have `q`.
pub fn items_entailing(closures: &[ItemSet], among: ItemSet, q: u32) -> ItemSet
    requires { q < PLACES }
    ensures part { IsWithin result among }
    ensures closures { (n k : ℕ) (f : List Items) → IsWithin among (full n) →
        closures.now ≡ map (closure (full n) f) (blocks n k) → (i : ℕ) →
        has result i ≡ true → has (closure (full n) f (single i)) q ≡ true }
{
    let mut entailing = ItemSet::empty();
    let mut left = among;
    while let Some(item) = left.least() {
        left = left.without(item);
        if closed_alone(closures, item).has(q) {
            entailing = entailing.with(item);
        }
    }
    entailing
}
