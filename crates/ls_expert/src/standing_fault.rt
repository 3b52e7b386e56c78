// Why an interview does not go on from answers.
use ls_query::BlockFault;
use std::alloc::AllocError;
use thiserror::Error;

/// Why an interview does not go on from answers.
#[derive(Clone, Copy, Debug, PartialEq, Eq, Error)]
pub enum StandingFault {
    /// No sets of the size can be asked.
    #[error("no such block")]
    BadBlock,
    /// There are too many sets to ask; `size` is the least size up to which there are.
    #[error("too many sets up to size {size}")]
    TooWide { size: u32 },
    /// The answers cannot stand.
    #[error("the answers cannot stand")]
    BadAnswers,
    /// Memory ran out.
    #[error("out of memory")]
    Memory(AllocError),
}

impl From<AllocError> for StandingFault {
    ghost use Rattle.std.specs.Prelude.{◌≡◌};
    ghost use Rattle.ls_expert.specs.declared.standing_fault.StandingFault.TheVariants.{Memory};

    ghost from_gives = { λ e f. f ≡ Memory e };

    fn from(e: AllocError) -> StandingFault {
        StandingFault::Memory(e)
    }
}

impl From<BlockFault> for StandingFault {
    ghost use Rattle.std.specs.Prelude.{◌≡◌};
    ghost use Rattle.ls_expert.specs.Saved.{standing_fault};

    ghost from_gives = { λ e f. f ≡ standing_fault e };

    fn from(e: BlockFault) -> StandingFault {
        match e {
            BlockFault::BadBlock => StandingFault::BadBlock,
            BlockFault::TooWide { size } => StandingFault::TooWide { size },
            BlockFault::Memory(e) => StandingFault::Memory(e),
        }
    }
}
