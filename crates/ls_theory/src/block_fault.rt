// Why blocks were not made.
use std::alloc::AllocError;
use thiserror::Error;

/// Why blocks were not made or not taken.
#[derive(Clone, Copy, Debug, PartialEq, Eq, Error)]
pub enum BlockFault {
    /// The greatest size is 0, or above both 1 and the number of items less 1.
    #[error("no such block")]
    BadBlock,
    /// There are too many sets; `size` is the least size up to which there are.
    #[error("too many sets up to size {size}")]
    TooWide { size: u32 },
    /// Memory ran out, where something is kept for each set.
    #[error("out of memory")]
    Memory(AllocError),
}
