// The sides of a mesh.
ghost use Rattle.std.specs.Prelude.{◌≡◌, ◌≤◌, None, IfOk, IfErr, OnOk};
ghost use Rattle.ls_laws.specs.Spans.{AreOn};
ghost use Rattle.ls_origins.specs.Meshes.{part_items, side, wide_side};
ghost use Rattle.ls_origins.specs.Meshes.{side_base};
ghost use Rattle.ls_mesh.specs.Meshed.{IsMeshFaultOf};

use crate::unions::union_within;
use ls_base::{Base, PastFault};
use ls_origins::MeshFault;
use ls_set::{ItemSet, PLACES};
use std::alloc::{AllocError, Global};

/// The items in some set, all of which are below `n`.
pub fn items_of(n: u32, sets: &[ItemSet]) -> ItemSet
    requires few { n ≤ PLACES }
    requires on { AreOn n sets.now }
    ensures { result ≡ part_items sets.now }
{
    union_within(sets, ItemSet::full(n))
}

// The sets, and each item below `n` outside the part alone.
fn side_sets(
    alloc: Global,
    n: u32,
    sets: &[ItemSet],
    part: ItemSet,
) -> Result<Vec<ItemSet>, AllocError>
    requires { n ≤ PLACES }
    ensures { IfOk result (λ v. v.items ≡ side n part sets.now) }
{
    let mut side = Vec::from_slice(alloc, sets)?;
    for item in ItemSet::full(n).minus(part).items() {
        side.push(ItemSet::empty().with(item))?;
    }
    Ok(side)
}

/// The base of a side, whose number is told where it has too many sets. `part` are the items in
/// some set.
pub fn side_base(
    alloc: Global,
    n: u32,
    number: u32,
    sets: &[ItemSet],
    part: ItemSet,
) -> Result<Base, MeshFault>
    requires few { n ≤ PLACES }
    requires on { AreOn n sets.now }
    requires part { part ≡ part_items sets.now }
    ensures sets { IfOk result (λ b. b.sets ≡ side_base n sets.now) }
    ensures item_count { IfOk result (λ b. b.item_count ≡ n) }
    ensures none { OnOk result (wide_side n number sets.now ≡ None) }
    ensures wide { IfErr result (IsMeshFaultOf (wide_side n number sets.now)) }
{
    let side = side_sets(alloc, n, sets, part)?;
    match Base::spanned_by(alloc, n, side) {
        Ok(base) => Ok(base),
        Err(PastFault::Past { count }) => Err(MeshFault::Wide {
            side: number,
            count,
        }),
        Err(PastFault::Memory(e)) => Err(MeshFault::Memory(e)),
    }
}
