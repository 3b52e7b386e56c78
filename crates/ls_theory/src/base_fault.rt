// Why sets give no base.
use std::alloc::AllocError;
use thiserror::Error;

/// Why a list of sets gives no base.
#[derive(Clone, Copy, Debug, PartialEq, Eq, Error)]
pub enum BaseFault {
    /// No set has the item, and each lesser item is in some set.
    #[error("no set has item {item}")]
    NotSpanning { item: u32 },
    /// The base has `count` sets, which are more than a base may have.
    #[error("{count} sets are too many")]
    Past { count: usize },
    /// Memory ran out.
    #[error("out of memory")]
    Memory(AllocError),
}

impl From<AllocError> for BaseFault {
    ghost use Rattle.std.specs.Prelude.{◌≡◌};
    ghost use Rattle.ls_theory.specs.declared.base_fault.BaseFault.TheVariants.{Memory};

    ghost from_gives = { λ e f. f ≡ Memory e };

    fn from(e: AllocError) -> BaseFault {
        BaseFault::Memory(e)
    }
}
