// Clauses in the order of sets, and the base of distinct ones.
ghost use Rattle.std.specs.Prelude.{◌≡◌, ◌≤◌, ℕ, None, Err, Ok, map, IfOk, IfErr, OnOk};
ghost use Rattle.ls_theory.specs.{all_clauses, base};
ghost use Rattle.ls_laws.specs.Spans.{AreOn, spanned};
ghost use Rattle.ls_base.specs.Bases.{family};
ghost use Rattle.ls_files.specs.SurmiseFiles.{in_order, wide};
ghost use Rattle.ls_surmise.specs.Surmises.{IsWideOf};

use ls_base::{Base, MOST_BASE_SETS, put_in_order};
use ls_set::{ItemSet, PLACES, SetList};
use ls_theory::SurmiseFault;
use std::alloc::{AllocError, Global};

// The sets of items below `n` in the order of sets, each once.
fn put_sets(alloc: Global, sets: &[ItemSet]) -> Result<SetList, AllocError>
    ensures { IfOk result (λ list. (n : ℕ) → AreOn n sets.now → list ≡ in_order n sets.now) }
{
    let mut put = Vec::from_slice(alloc, sets)?;
    put_in_order(&mut put);
    let mut list = SetList::new(alloc);
    for set in &put {
        list.push(*set)?;
    }
    Ok(list)
}

/// The clauses of each item in the order of sets, each once.
pub(crate) fn put_clauses(alloc: Global, clauses: &[SetList]) -> Result<Vec<SetList>, AllocError>
    ensures { IfOk result (λ v. (n : ℕ) → AreOn n (all_clauses clauses.now) →
        v.items ≡ map (in_order n) clauses.now) }
{
    let mut put = Vec::new(alloc);
    for own in clauses {
        let sets = put_sets(alloc, own.as_slice())?;
        put.push(sets)?;
    }
    Ok(put)
}

// The clauses of all items, one item's after the other's.
fn all_clauses(alloc: Global, clauses: &[SetList]) -> Result<Vec<ItemSet>, AllocError>
    ensures { IfOk result (λ v. v.items ≡ all_clauses clauses.now) }
{
    let mut all = Vec::new(alloc);
    for own in clauses {
        all.extend_from_slice(own.as_slice())?;
    }
    Ok(all)
}

/// The base of the unions of all clauses, unless there are more distinct ones than a base may have
/// sets: they are then told by their number.
pub(crate) fn base_of_clauses(
    alloc: Global,
    n: u32,
    clauses: &[SetList],
) -> Result<Base, SurmiseFault>
    requires few_items { n ≤ PLACES }
    requires is_on { AreOn n (all_clauses clauses.now) }
    ensures few { OnOk result (wide n clauses.now ≡ None) }
    ensures item_count { IfOk result (λ b. b.item_count ≡ n) }
    ensures members { IfOk result (λ b. family b ≡ spanned n (all_clauses clauses.now)) }
    ensures is_base { IfOk result (λ b. base (family b) ≡ b.sets) }
    ensures fault { IfErr result (IsWideOf (wide n clauses.now)) }
{
    let mut all = all_clauses(alloc, clauses).map_err(SurmiseFault::Memory)?;
    put_in_order(&mut all);
    if all.len() > MOST_BASE_SETS {
        return Err(SurmiseFault::Wide { count: all.len() });
    }
    match Base::from_sets(alloc, n, &all) {
        Ok(base) => Ok(base),
        // The clauses of a surmise function have each item, and they are few.
        Err(_) => Err(SurmiseFault::Memory(AllocError)),
    }
}
