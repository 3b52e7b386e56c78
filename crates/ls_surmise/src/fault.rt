// Why there is no surmise function.
use std::alloc::AllocError;
use thiserror::Error;

/// Why a base gives no surmise function.
#[derive(Clone, Copy, Debug, PartialEq, Eq, Error)]
pub enum FromFault {
    /// No set of the base has the item, and each lesser item is in some set.
    #[error("no set has item {item}")]
    NotSpanning { item: u32 },
    /// Memory ran out.
    #[error("out of memory")]
    Memory(AllocError),
}

impl From<AllocError> for FromFault {
    ghost use Rattle.std.specs.Prelude.{◌≡◌};
    ghost use Rattle.ls_surmise.specs.declared.fault.FromFault.TheVariants.{Memory};

    ghost from_gives = { λ e f. f ≡ Memory e };

    fn from(e: AllocError) -> FromFault {
        FromFault::Memory(e)
    }
}
