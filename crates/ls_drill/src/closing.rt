// The transitive closure of related pairs.
ghost use Rattle.std.specs.Prelude.{◌≡◌, ◌<◌, ◌≤◌, ℕ, false, length, replicate, slice_set};
ghost use Rattle.std.specs.Prelude.{slice_index_or, IfOk};
ghost use Rattle.std.specs.List.{All};
ghost use Rattle.ls_set.specs.{empty, has, union, with};
ghost use Rattle.ls_drill.specs.Draws.{IsPair, has_chain};

use ls_set::{ItemSet, PLACES};
use std::alloc::{AllocError, Global};

// No items for each of `n`.
fn no_items(alloc: Global, n: u32) -> Result<Vec<ItemSet>, AllocError>
    ensures { IfOk result (λ v. v.items ≡ replicate n empty) }
{
    let mut after = Vec::new(alloc);
    for _ in 0..n {
        after.push(ItemSet::empty())?;
    }
    Ok(after)
}

// Puts item `i` before item `j`, and so before all that `j` is before.
fn put_before(after: &mut [ItemSet], i: u32, j: u32)
    requires first { i < length after.old }
    requires second { j < length after.old }
    requires few { length after.old ≤ PLACES }
    ensures { after.new ≡ slice_set after.old i (union (slice_index_or after.old i empty)
        (with (slice_index_or after.old j empty) j)) }
{
    let beyond = after[j as usize].with(j);
    after[i as usize] = after[i as usize].union(beyond);
}

// Puts the items of the pairs before one another, the last pair first. Where the pairs stand in
// order, all that the second of a pair is before is there when the pair's turn comes.
fn put_all(after: &mut [ItemSet], pairs: &[(u32, u32)])
    requires none { (a q : ℕ) → has (slice_index_or after.old a empty) q ≡ false }
    requires pairs { All (IsPair (length after.old)) pairs.now }
    requires few { length after.old ≤ PLACES }
    ensures { (a q : ℕ) → a < length after.old →
        has (slice_index_or after.new a empty) q ≡ has_chain pairs.now a q }
{
    for place in (0..pairs.len()).rev() {
        let (i, j) = pairs[place];
        put_before(after, i, j);
    }
}

// For each of `n` items those that it is before, by the pairs, which stand in order.
pub fn closed(alloc: Global, n: u32, pairs: &[(u32, u32)]) -> Result<Vec<ItemSet>, AllocError>
    requires pairs { All (IsPair n) pairs.now }
    requires few { n ≤ PLACES }
    ensures items { IfOk result (λ v. length v.items ≡ n) }
    ensures reached { IfOk result (λ v. (a q : ℕ) → a < n →
        has (slice_index_or v.items a empty) q ≡ has_chain pairs.now a q) }
{
    let mut after = no_items(alloc, n)?;
    put_all(&mut after, pairs);
    Ok(after)
}
