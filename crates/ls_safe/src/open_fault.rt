// Why a base opens no safe interview.
use ls_set::ItemSet;
use std::alloc::AllocError;

/// Why a base opens no safe interview.
#[derive(Clone, Copy)]
pub enum OpenFault {
    /// Its family is no learning space: the set of the base is an atom at both items.
    NotLearning {
        set: ItemSet,
        first: u32,
        second: u32,
    },
    /// Memory ran out.
    Memory(AllocError),
}

impl From<AllocError> for OpenFault {
    ghost use Rattle.std.specs.Prelude.{◌≡◌};
    ghost use Rattle.ls_safe.specs.declared.open_fault.OpenFault.TheVariants.{Memory};

    ghost from_gives = { λ e f. f ≡ Memory e };

    fn from(e: AllocError) -> OpenFault {
        OpenFault::Memory(e)
    }
}
