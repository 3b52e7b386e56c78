// Why a step ended before its reply was whole.

use ls_edge::SinkFault;
use std::alloc::AllocError;
use thiserror::Error;

/// Why a step ended before its reply was whole.
#[derive(Clone, Copy, Debug, PartialEq, Eq, Error)]
pub enum StepFault {
    /// The sink failed.
    #[error("the write failed")]
    Write,
    #[error("out of memory")]
    Memory(AllocError),
}

impl From<AllocError> for StepFault {
    ghost use Rattle.std.specs.Prelude.{◌≡◌};
    ghost use Rattle.ls_session.specs.declared.step_fault.StepFault.TheVariants.{Memory};

    ghost from_gives = { λ e f. f ≡ Memory e };

    fn from(e: AllocError) -> StepFault {
        StepFault::Memory(e)
    }
}

impl From<SinkFault> for StepFault {
    ghost use Rattle.ls_session.specs.Faults.{step_fault};
    ghost use Rattle.std.specs.Prelude.{◌≡◌};

    ghost from_gives = { λ e f. f ≡ step_fault e };

    fn from(e: SinkFault) -> StepFault {
        match e {
            SinkFault::Failed => StepFault::Write,
            SinkFault::Memory(e) => StepFault::Memory(e),
        }
    }
}
