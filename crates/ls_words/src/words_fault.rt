// Why words ask for nothing.

use std::alloc::AllocError;
use thiserror::Error;

/// Why words ask for nothing.
#[derive(Clone, Copy, Debug, PartialEq, Eq, Error)]
pub enum WordsFault {
    /// They have no form, or a value isn't of its form or not in its range.
    #[error("the words have no form")]
    Usage,
    #[error("out of memory")]
    Memory(AllocError),
}
