// Why a run ended before the end of its script.

use ls_session::StepFault;
use std::alloc::AllocError;

/// Why a run ended before the end of its script. It is told as a status alone.
#[derive(Clone, Copy)]
pub enum RunFault {
    /// The script has more bytes than are read.
    Long,
    /// The source failed.
    Read,
    /// The sink failed.
    Write,
    /// Memory ran out.
    Memory(AllocError),
}

impl From<AllocError> for RunFault {
    ghost use Rattle.std.specs.Prelude.{◌≡◌};
    ghost use Rattle.ls_shell.specs.declared.run_fault.RunFault.TheVariants.{Memory};

    ghost from_gives = { λ e f. f ≡ Memory e };

    fn from(e: AllocError) -> RunFault {
        RunFault::Memory(e)
    }
}

impl From<StepFault> for RunFault {
    ghost use Rattle.ls_shell.specs.Faults.{run_fault};
    ghost use Rattle.std.specs.Prelude.{◌≡◌};

    ghost from_gives = { λ e f. f ≡ run_fault e };

    fn from(e: StepFault) -> RunFault {
        match e {
            StepFault::Write => RunFault::Write,
            StepFault::Memory(e) => RunFault::Memory(e),
        }
    }
}
