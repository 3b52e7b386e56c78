// Why a command has no meaning on named items.
use std::alloc::AllocError;

/// The place of the first word that must name an item and doesn't, counted from 1 in the words of
/// the line.
#[derive(Clone, Copy)]
pub struct Unnamed {
    pub place: usize,
}

/// Why a command isn't resolved.
#[derive(Clone, Copy, Debug)]
pub enum ResolveFault {
    /// The word at this place, the first, must name an item and doesn't.
    Unnamed { place: usize },
    /// Memory ran out.
    Memory(AllocError),
}

impl From<Unnamed> for ResolveFault {
    ghost use Rattle.std.specs.Prelude.{◌≡◌};
    ghost use Rattle.ls_resolve.specs.declared.unnamed.ResolveFault.TheVariants as fault;

    ghost from_gives = { λ u f. f ≡ fault.Unnamed u.place };

    fn from(unnamed: Unnamed) -> ResolveFault {
        ResolveFault::Unnamed {
            place: unnamed.place,
        }
    }
}

impl From<AllocError> for ResolveFault {
    ghost use Rattle.std.specs.Prelude.{◌≡◌};
    ghost use Rattle.ls_resolve.specs.declared.unnamed.ResolveFault.TheVariants as fault;

    ghost from_gives = { λ e f. f ≡ fault.Memory e };

    fn from(e: AllocError) -> ResolveFault {
        ResolveFault::Memory(e)
    }
}
