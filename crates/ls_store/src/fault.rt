// Why a session is not read.
use ls_files::Cause;
use std::alloc::AllocError;
use thiserror::Error;

/// Why a session is not read.
#[derive(Clone, Copy, Debug, PartialEq, Eq, Error)]
pub enum SessionFault {
    /// The bytes are no saved session: `cause` is the first of its parts that fails.
    #[error("no saved session")]
    BadSession { cause: Cause },
    /// Memory ran out.
    #[error("out of memory")]
    Memory(AllocError),
}

impl From<AllocError> for SessionFault {
    ghost use Rattle.std.specs.Prelude.{◌≡◌};
    ghost use Rattle.ls_store.specs.declared.fault.SessionFault.TheVariants.{Memory};

    ghost from_gives = { λ e f. f ≡ Memory e };

    fn from(e: AllocError) -> SessionFault {
        SessionFault::Memory(e)
    }
}
