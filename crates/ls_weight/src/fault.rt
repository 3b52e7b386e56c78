// Why there are no weights.
use std::alloc::AllocError;
use thiserror::Error;

/// Why there are no weights.
#[derive(Clone, Copy, Debug, PartialEq, Eq, Error)]
pub enum WeightFault {
    /// After so many replies, at most the budget, the total may pass 2 ^ 120.
    #[error("the total of the weights may be too great after {replies} replies")]
    Heavy { replies: u32 },
    /// Memory ran out.
    #[error("out of memory")]
    Memory(AllocError),
}
