// Why an interview does not begin with another start.
use std::alloc::AllocError;
use thiserror::Error;

/// Why an interview does not begin with another start.
#[derive(Clone, Copy, Debug, PartialEq, Eq, Error)]
pub enum StartFault {
    /// An answer stands.
    #[error("an answer stands")]
    AnswersStand,
    /// Memory ran out.
    #[error("out of memory")]
    Memory(AllocError),
}

impl From<AllocError> for StartFault {
    ghost use Rattle.std.specs.Prelude.{◌≡◌};
    ghost use Rattle.ls_expert.specs.declared.start_fault.StartFault.TheVariants.{Memory};

    ghost from_gives = { λ e f. f ≡ Memory e };

    fn from(e: AllocError) -> StartFault {
        StartFault::Memory(e)
    }
}
