// Why there is no base.
use ls_theory::BaseFault;
use std::alloc::AllocError;
use thiserror::Error;

/// Why a base has not been made of another.
#[derive(Clone, Copy, Debug, PartialEq, Eq, Error)]
pub enum PastFault {
    /// It has `count` sets, which are more than [`MOST_BASE_SETS`](crate::MOST_BASE_SETS).
    #[error("{count} sets are too many")]
    Past { count: usize },
    /// Memory ran out.
    #[error("out of memory")]
    Memory(AllocError),
}

impl From<AllocError> for PastFault {
    ghost use Rattle.std.specs.Prelude.{◌≡◌};
    ghost use Rattle.ls_base.specs.declared.fault.PastFault.TheVariants.{Memory};

    ghost from_gives = { λ e f. f ≡ Memory e };

    fn from(e: AllocError) -> PastFault {
        PastFault::Memory(e)
    }
}

impl From<PastFault> for BaseFault {
    ghost use Rattle.std.specs.Prelude.{◌≡◌};
    ghost use Rattle.ls_base.specs.Bases.{base_fault};

    ghost from_gives = { λ e f. f ≡ base_fault e };

    fn from(e: PastFault) -> BaseFault {
        match e {
            PastFault::Past { count } => BaseFault::Past { count },
            PastFault::Memory(e) => BaseFault::Memory(e),
        }
    }
}
