// Why two parts have no mesh.
use std::alloc::AllocError;
use thiserror::Error;

/// Why two parts have no mesh. The first of these that holds is told.
#[derive(Clone, Copy, Debug, Error)]
pub enum MeshFault {
    /// The item is in neither part, and each lesser item is in one.
    #[error("no part has item {item}")]
    NotCovered { item: u32 },
    /// On a side, which is 1 or 2, the base of its sets and of the single items outside it has
    /// `count` sets, more than a base may have.
    #[error("{count} sets of side {side} are too many")]
    Wide { side: u32, count: usize },
    /// Memory ran out.
    #[error("out of memory")]
    Memory(AllocError),
}

impl From<AllocError> for MeshFault {
    ghost use Rattle.std.specs.Prelude.{◌≡◌};
    ghost use Rattle.ls_origins.specs.declared.mesh_fault.MeshFault.TheVariants.{Memory};

    ghost from_gives = { λ e f. f ≡ Memory e };

    fn from(e: AllocError) -> MeshFault {
        MeshFault::Memory(e)
    }
}
