// The test on a family.
ghost use Rattle.std.specs.Prelude.{◌≡◌, IfOk};
ghost use Rattle.ls_set.specs.{IsInOrder, full};
ghost use Rattle.ls_theory.specs.{verdict, with_base};
ghost use Rattle.ls_laws.specs.Spans.{needed};
ghost use Rattle.ls_clauses.specs.Verdicts.{graded_by};

use crate::gradation::judge;
use crate::submembers::base_sets;
use crate::unions::{first_lacking, first_partner};
use ls_family::Family;
use ls_set::{ItemSet, SetList};
use ls_theory::{BaseVerdict, Verdict};
use std::alloc::{AllocError, Global};
use std::thread::Threads;

// The verdict on a space with the base.
fn with_base(alloc: Global, base: &[ItemSet]) -> Result<Verdict, AllocError>
    requires in_order { IsInOrder base.now }
    requires needed { needed base.now ≡ base.now }
    ensures { IfOk result (λ v. v ≡ with_base base.now (graded_by base.now base.now)) }
{
    match judge(base) {
        BaseVerdict::NotGraded { set, first, second } => {
            Ok(Verdict::NotGraded { set, first, second })
        }
        BaseVerdict::Learning => Ok(Verdict::Learning {
            base: SetList::from_slice(alloc, base)?,
        }),
    }
}

/// What the family is: it lacks the empty set, or the set of all items, or the union of two of its
/// sets, the first such; or it is a space that is not well graded, by the first set of its base
/// that is an atom at two items; or it is a learning space, with its base.
pub fn test<R: Threads + Sync>(rt: &R, alloc: Global, f: &Family) -> Result<Verdict, AllocError>
    ensures verdict { IfOk result (λ v. v ≡ verdict (full f.now.item_count) f.now.sets) }
{
    if !f.contains(ItemSet::empty()) {
        return Ok(Verdict::NoEmpty);
    }
    if !f.contains(ItemSet::full(f.items())) {
        return Ok(Verdict::NoFull);
    }
    let base = base_sets(rt, alloc, f.members())?;
    if let Some(left) = first_lacking(alloc, f, &base)? {
        let right = first_partner(f, left).unwrap_or(ItemSet::empty());
        return Ok(Verdict::NotClosed { left, right });
    }
    with_base(alloc, &base)
}
