// Why an answer was not retracted.
use std::alloc::AllocError;
use thiserror::Error;

/// Why an answer was not retracted.
#[derive(Clone, Copy, Debug, PartialEq, Eq, Error)]
pub enum RetractFault {
    /// No standing answer has the number.
    #[error("no such answer stands")]
    NotStanding,
    /// Memory ran out.
    #[error("out of memory")]
    Memory(AllocError),
}

impl From<AllocError> for RetractFault {
    ghost use Rattle.std.specs.Prelude.{◌≡◌};
    ghost use Rattle.ls_expert.specs.declared.retract_fault.RetractFault.TheVariants.{Memory};

    ghost from_gives = { λ e f. f ≡ Memory e };

    fn from(e: AllocError) -> RetractFault {
        RetractFault::Memory(e)
    }
}
