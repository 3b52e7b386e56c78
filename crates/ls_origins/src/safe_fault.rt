// Why a safe interview does not take an answer.
use std::alloc::AllocError;
use thiserror::Error;

/// Why a safe interview does not take an answer.
#[derive(Clone, Copy, Debug, Error)]
pub enum SafeFault {
    /// The query can't be asked about the items.
    #[error("the query can't be asked")]
    BadQuery,
    /// The answer with the number has the query.
    #[error("the query has answer {number}")]
    Repeat { number: u64 },
    /// As many answers were accepted as can be.
    #[error("no room for an answer")]
    Full,
    /// The base of the first trial that has too many sets has `count` of them.
    #[error("{count} sets are too many")]
    Past { count: usize },
    /// Memory ran out.
    #[error("out of memory")]
    Memory(AllocError),
}

impl From<AllocError> for SafeFault {
    ghost use Rattle.std.specs.Prelude.{◌≡◌};
    ghost use Rattle.ls_origins.specs.declared.safe_fault.SafeFault.TheVariants.{Memory};

    ghost from_gives = { λ e f. f ≡ Memory e };

    fn from(e: AllocError) -> SafeFault {
        SafeFault::Memory(e)
    }
}
