// Pupils parted by an item, and what is known of them put together again.
ghost use Rattle.std.specs.Prelude.{◌≡◌, ◌<◌, IfOk, filter, map, not, length, count_by};
ghost use Rattle.ls_set.specs.{Items, has, most_items};

use ls_set::ItemSet;
use ls_theory::Replay;
use std::alloc::{AllocError, Global};

// The pupils that get the item right.
pub(crate) fn with_item(
    alloc: Global,
    rights: &[ItemSet],
    q: u32,
) -> Result<Vec<ItemSet>, AllocError>
    requires { q < most_items }
    ensures { IfOk result (λ v. v.items ≡ filter (λ k. has k q) rights.now) }
{
    rights.iter().copied().filter(|k| k.has(q)).collect(alloc)
}

// The pupils that get the item wrong.
pub(crate) fn without_item(
    alloc: Global,
    rights: &[ItemSet],
    q: u32,
) -> Result<Vec<ItemSet>, AllocError>
    requires { q < most_items }
    ensures { IfOk result (λ v. v.items ≡ filter (λ k. not (has k q)) rights.now) }
{
    rights.iter().copied().filter(|k| !k.has(q)).collect(alloc)
}

// What is known of the pupils, in their order: of those that get the item right, and of the others.
pub(crate) fn merged(
    alloc: Global,
    rights: &[ItemSet],
    q: u32,
    got: &[Replay],
    missed: &[Replay],
) -> Result<Vec<Replay>, AllocError>
    requires item { q < most_items }
    requires got { length got.now ≡ count_by (λ k. has k q) rights.now }
    requires missed { length missed.now ≡ count_by (λ k. not (has k q)) rights.now }
    ensures { (known : Items → Replay) →
        got.now ≡ map known (filter (λ k. has k q) rights.now) →
        missed.now ≡ map known (filter (λ k. not (has k q)) rights.now) →
        IfOk result (λ v. v.items ≡ map known rights.now) }
{
    let mut all = Vec::with_capacity(alloc, rights.len())?;
    let mut from_got = 0;
    let mut from_missed = 0;
    for right in rights {
        if right.has(q) {
            all.push(got[from_got])?;
            from_got += 1;
        } else {
            all.push(missed[from_missed])?;
            from_missed += 1;
        }
    }
    Ok(all)
}
