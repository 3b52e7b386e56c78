// The place of a set in the blocks.
ghost use Rattle.std.specs.Prelude.{◌≡◌, ◌≤◌, ℕ, length};
ghost use Rattle.std.specs.List.{position};
ghost use Rattle.ls_set.specs.{IsWithin, full, is_same, items, len};
ghost use Rattle.ls_theory.specs.{blocks, most_sets};
ghost use Rattle.ls_query.specs.Blocks.{choose};
ghost use Rattle.ls_query.specs.Places.{count_after};

use crate::counting::{count_sets, of_next_size};
use ls_set::{ItemSet, PLACES};

// How many sets of a size of `m` items there are.
fn count_of_size(m: u32, size: u32) -> u32
    requires items { m ≤ PLACES }
    requires sizes { size ≤ PLACES }
    requires few { (j : ℕ) → j ≤ size → choose m j ≤ most_sets }
    ensures { result ≡ choose m size }
{
    let mut sets = 1;
    for had in 0..size {
        sets = of_next_size(m, had, sets);
    }
    sets
}

// How many of the sets of its size of `n` items come after the set: for each of its items, those
// that agree with it up to there, and have greater items from there on.
fn count_after(n: u32, a: ItemSet) -> u32
    requires items { n ≤ PLACES }
    requires within { IsWithin a (full n) }
    requires few { (m j : ℕ) → m ≤ n → j ≤ len a → choose m j ≤ most_sets }
    ensures { result ≡ count_after n (items a) }
{
    let mut after = 0;
    let mut left = a.len();
    for item in a.items() {
        after += count_of_size(n - item - 1, left);
        left -= 1;
    }
    after
}

// The place of a set among those of 1 to `k` of `n` items, if it is one of them.
pub fn place_of(n: u32, k: u32, a: ItemSet) -> Option<u32>
    requires items { n ≤ PLACES }
    requires sizes { k ≤ n }
    requires few { length (blocks n k) ≤ most_sets }
    ensures { result ≡ position (is_same a) (blocks n k) }
{
    let size = a.len();
    if size == 0 || size > k || !a.is_within(ItemSet::full(n)) {
        return None;
    }
    // The set and those after it are the last of those up to its size.
    let up_to_size = count_sets(n, size).unwrap();
    Some(up_to_size - 1 - count_after(n, a))
}
