// The base of a projection.
ghost use Rattle.std.specs.Prelude.{◌≡◌, IfOk};
ghost use Rattle.ls_theory.specs.{base, projection};
ghost use Rattle.ls_clauses.specs.Traces.{meets_with};
ghost use Rattle.ls_base.specs.Bases.{family};

use ls_base::{Base, PastFault};
use ls_interior::Inside;
use ls_set::ItemSet;
use std::alloc::{AllocError, Global};

// The meet of the part with each of the sets.
fn meets_with(alloc: Global, sets: &[ItemSet], part: ItemSet) -> Result<Vec<ItemSet>, AllocError>
    ensures { IfOk result (λ v. v.items ≡ meets_with part sets.now) }
{
    sets.iter().map(|set| part.meet(*set)).collect(alloc)
}

/// The base of the projection of a base's family on the part. It has no more sets than the base.
pub fn project_base(alloc: Global, b: &Base, part: ItemSet) -> Result<Base, AllocError>
    ensures sets { IfOk result (λ p.
        p.sets ≡ base (projection b.now.item_count part (family b.now))) }
    ensures item_count { IfOk result (λ p. p.item_count ≡ b.now.item_count) }
{
    let meets = meets_with(alloc, b.sets(), part)?;
    match Base::spanned_by(alloc, b.items(), meets) {
        Ok(base) => Ok(base),
        Err(PastFault::Memory(e)) => Err(e),
        Err(PastFault::Past { .. }) => unreachable!(),
    }
}
