// Why rows give no domain.

use std::alloc::AllocError;
use thiserror::Error;

/// Why rows give no domain. Rows are counted from 1; the rows of a table are its records.
#[derive(Clone, Copy, Debug, PartialEq, Eq, Error)]
pub enum DomainFault {
    /// There is no row.
    #[error("no items")]
    NoItems,
    /// The record has another number of fields than the first one.
    #[error("row {row} has another number of fields than the first")]
    BadCsv { row: u32 },
    /// The row's first field is no name.
    #[error("row {row} has no name")]
    BadName { row: u32 },
    /// The row has the name of an earlier row, `first`.
    #[error("row {row} has the name of row {first}")]
    Repeat { row: u32, first: u32 },
    /// There are more rows than a domain has items.
    #[error("too many items")]
    TooMany,
    /// Memory ran out.
    #[error("out of memory")]
    Memory(AllocError),
}
