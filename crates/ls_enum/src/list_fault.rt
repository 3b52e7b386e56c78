// Why a family was not listed whole.
use std::alloc::AllocError;
use thiserror::Error;

/// Why a family was not listed whole.
#[derive(Clone, Copy, Debug, PartialEq, Eq, Error)]
pub enum ListFault {
    /// It has more members than were to be listed.
    #[error("too many members")]
    More,
    /// Memory ran out.
    #[error("out of memory")]
    Memory(AllocError),
}

impl From<AllocError> for ListFault {
    ghost use Rattle.std.specs.Prelude.{◌≡◌};
    ghost use Rattle.ls_enum.specs.declared.list_fault.ListFault.TheVariants.{Memory};

    ghost from_gives = { λ e f. f ≡ Memory e };

    fn from(e: AllocError) -> ListFault {
        ListFault::Memory(e)
    }
}
