// How many sets of the first sizes there are.
ghost use Rattle.std.specs.Prelude.{◌≡◌, ◌<◌, ◌≤◌, ◌+◌, ◌*◌, ℕ, length, find, IfOk, OnOk};
ghost use Rattle.std.specs.Prelude.{Ok, Err, None, Some};
ghost use Rattle.ls_set.specs.{numbers_from};
ghost use Rattle.ls_theory.specs.{blocks, is_too_wide, most_sets};
ghost use Rattle.ls_query.specs.Blocks.{choose};

use ls_set::PLACES;

/// How many sets blocks have at most.
pub const MOST_SETS: u32 = 400_000;

// How many sets of `size + 1` of `n` items there are, from how many of `size` there are.
pub fn of_next_size(n: u32, size: u32, of_size: u32) -> u32
    requires items { n ≤ PLACES }
    requires size { size < PLACES }
    requires sets { of_size ≡ choose n size }
    requires few { of_size ≤ most_sets }
    ensures value { result ≡ choose n (size + 1) }
    ensures small { result ≤ of_size * PLACES }
{
    of_size * n.saturating_sub(size) / (size + 1)
}

// How many sets of 1 to `k` of `n` items there are, or the least size up to which there are too
// many.
pub fn count_sets(n: u32, k: u32) -> Result<u32, u32>
    requires items { n ≤ PLACES }
    requires sizes { k ≤ n }
    ensures sets { IfOk result (λ sets. sets ≡ length (blocks n k)) }
    ensures few { IfOk result (λ sets. sets ≤ most_sets) }
    ensures all { OnOk result (find (is_too_wide n) (numbers_from 1 k) ≡ None) }
    ensures past { (size : ℕ) → result ≡ Err size →
        find (is_too_wide n) (numbers_from 1 k) ≡ Some size }
{
    let mut of_size = 1;
    let mut sets = 0;
    for size in 0..k {
        of_size = of_next_size(n, size, of_size);
        sets += of_size;
        if sets > MOST_SETS {
            return Err(size + 1);
        }
    }
    Ok(sets)
}
