// Why a table gives no class.

use std::alloc::AllocError;
use thiserror::Error;

/// Why a table gives no class. Its rows are its records, counted from 1.
#[derive(Clone, Copy, Debug, PartialEq, Eq, Error)]
pub enum ClassFault {
    /// The row is no header, where it is the first one, or else no row of a pupil.
    #[error("row {row} is bad")]
    BadClass { row: u32 },
    /// Memory ran out.
    #[error("out of memory")]
    Memory(AllocError),
}
