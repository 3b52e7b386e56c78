// The step from a set to the next of its size.
ghost use Rattle.std.specs.Prelude.{◌≡◌, ◌≤◌, find, MatchOption};
ghost use Rattle.ls_set.specs.{IsWithin, full};
ghost use Rattle.ls_theory.specs.{block_before, blocks};
ghost use Rattle.ls_query.specs.Moves.{IsLastMove, HasNoMove, moved};

use ls_set::{ItemSet, PLACES};

// The greatest item that can move up: it is in the set, and the item above it is not.
fn last_move(n: u32, a: ItemSet) -> Option<u32>
    requires { n ≤ PLACES }
    ensures { MatchOption result (HasNoMove n a) (λ i. IsLastMove n a i) }
{
    let end = n.saturating_sub(1);
    a.items().filter(|i| *i < end && !a.has(*i + 1)).last()
}

// The set in which that item has moved up by one, and those behind it follow directly.
fn moved(n: u32, a: ItemSet, i: u32) -> ItemSet
    requires items { n ≤ PLACES }
    requires within { IsWithin a (full n) }
    requires last { IsLastMove n a i }
    ensures { result ≡ moved a i }
{
    let kept = a.keep_before(i);
    let end = i + 1 + (a.len() - kept.len());
    ItemSet::full(end).minus(ItemSet::full(i + 1)).union(kept)
}

// The first set of 1 to `k` of `n` items that comes after the given one, which may be empty.
pub fn set_after(n: u32, k: u32, a: ItemSet) -> Option<ItemSet>
    requires items { n ≤ PLACES }
    requires sizes { k ≤ n }
    requires within { IsWithin a (full n) }
    ensures { result ≡ find (block_before a) (blocks n k) }
{
    let size = a.len();
    if size > k {
        return None;
    }
    match last_move(n, a) {
        Some(i) => Some(moved(n, a, i)),
        None if size < k => Some(ItemSet::full(size + 1)),
        None => None,
    }
}
