// Why a file gives no relation.
use std::alloc::AllocError;
use thiserror::Error;

/// Why a file of pairs gives no relation. Rows are the file's lines, counted from 1.
#[derive(Clone, Copy, Debug, Error)]
pub enum PairFault {
    /// The line has words that are not two names.
    #[error("line {row} is no pair of names")]
    BadLine { row: usize },
    /// A name in the line is that of no item.
    #[error("line {row} has a name that no item has")]
    UnknownItem { row: usize },
    /// The item is below itself, and no lesser item is.
    #[error("item {item} is below itself")]
    Cycle { item: u32 },
    /// Memory ran out.
    #[error("out of memory")]
    Memory(AllocError),
}

impl From<AllocError> for PairFault {
    ghost use Rattle.std.specs.Prelude.{◌≡◌};
    ghost use Rattle.ls_origins.specs.declared.pair_fault.PairFault.TheVariants.{Memory};

    ghost from_gives = { λ e f. f ≡ Memory e };

    fn from(e: AllocError) -> PairFault {
        PairFault::Memory(e)
    }
}
