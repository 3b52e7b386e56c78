// Why a part of a session is not read.
use std::alloc::{AllocError, AllocFailed};

/// Why a part of a session is not read.
#[derive(Clone, Copy)]
pub enum PartFault {
    /// It is missing, or not of its form, or breaks a condition of its form.
    Bad,
    /// Memory ran out.
    Memory(AllocError),
}

impl From<AllocError> for PartFault {
    ghost use Rattle.std.specs.Prelude.{◌≡◌};
    ghost use Rattle.ls_codecs.specs.declared.part_fault.PartFault.TheVariants.{Memory};

    ghost from_gives = { λ e f. f ≡ Memory e };

    fn from(e: AllocError) -> PartFault {
        PartFault::Memory(e)
    }
}

impl<T: Drop> From<AllocFailed<T>> for PartFault {
    ghost use Rattle.std.specs.Prelude.{◌≡◌};
    ghost use Rattle.std.specs.declared.alloc.AllocError.{AllocError};
    ghost use Rattle.ls_codecs.specs.declared.part_fault.PartFault.TheVariants.{Memory};

    ghost from_gives = { λ e f. (a : AllocError) × (f ≡ Memory a) };

    fn from(e: AllocFailed<T>) -> PartFault {
        PartFault::Memory(AllocError::from(e))
    }
}
