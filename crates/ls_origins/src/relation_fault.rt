// Why a surmise function is no partial order.
use std::alloc::AllocError;
use thiserror::Error;

/// Why a surmise function is no partial order. The first of these that holds is told.
#[derive(Clone, Copy, Debug, Error)]
pub enum RelationFault {
    /// The item has two clauses or more, and no lesser item has.
    #[error("item {item} has more than one clause")]
    TwoClauses { item: u32 },
    /// Each of the two items is in the clause of the other.
    #[error("items {first} and {second} are below each other")]
    Quasi { first: u32, second: u32 },
    /// Memory ran out.
    #[error("out of memory")]
    Memory(AllocError),
}

impl From<AllocError> for RelationFault {
    ghost use Rattle.std.specs.Prelude.{◌≡◌};
    ghost use Rattle.ls_origins.specs.declared.relation_fault.RelationFault.TheVariants.{Memory};

    ghost from_gives = { λ e f. f ≡ Memory e };

    fn from(e: AllocError) -> RelationFault {
        RelationFault::Memory(e)
    }
}
