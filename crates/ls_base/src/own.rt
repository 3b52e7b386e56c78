// The items of a set that no set of a list below it has.
ghost use Rattle.std.specs.Prelude.{◌≡◌, ◌≢◌, ℕ, true, false};
ghost use Rattle.ls_set.specs.{IsWithin, has, is_among, is_same, len, meet, minus, single};
ghost use Rattle.ls_laws.specs.Spans.{union_below};

use crate::unions::is_proper;
use ls_set::ItemSet;

/// Items each of which is alone a set of the list.
pub fn single_items(sets: &[ItemSet]) -> ItemSet
    ensures { (i : ℕ) → has result i ≡ true → is_among sets.now (single i) ≡ true }
{
    let mut singles = ItemSet::empty();
    for set in sets {
        if set.len() == 1 {
            singles = singles.union(*set);
        }
    }
    singles
}

/// The items of the set that are in none of the sets of the list that lie within it and are not the
/// same; there is one at least.
pub fn own_items(sets: &[ItemSet], set: ItemSet) -> ItemSet
    requires needed { is_same (union_below sets.now set) set ≡ false }
    ensures { result ≡ minus set (union_below sets.now set) }
{
    own_items_but(sets, set, ItemSet::empty())
}

/// The same, where it is known of some items that a set of several has none of them for its own.
/// The first set of the list is asked first: behind a set in the order often comes one that lacks
/// one item.
pub fn own_items_but(sets: &[ItemSet], set: ItemSet, known: ItemSet) -> ItemSet
    requires needed { is_same (union_below sets.now set) set ≡ false }
    requires known { len set ≢ 1 → IsWithin (meet set known) (union_below sets.now set) }
    ensures { result ≡ minus set (union_below sets.now set) }
{
    match sets.first() {
        Some(next) if is_proper(*next, set) => own_items_from_end(sets, set, known.union(*next)),
        _ => own_items_from_end(sets, set, known),
    }
}

// The same. The list is walked from its end, until one item is left.
fn own_items_from_end(sets: &[ItemSet], set: ItemSet, known: ItemSet) -> ItemSet
    requires needed { is_same (union_below sets.now set) set ≡ false }
    requires known { len set ≢ 1 → IsWithin (meet set known) (union_below sets.now set) }
    ensures { result ≡ minus set (union_below sets.now set) }
{
    if set.len() == 1 {
        return set;
    }
    let mut own = set.minus(known);
    if own.len() == 1 {
        return own;
    }
    for place in (0..sets.len()).rev() {
        let other = sets[place];
        if is_proper(other, set) {
            own = own.minus(other);
            if own.len() == 1 {
                return own;
            }
        }
    }
    own
}
