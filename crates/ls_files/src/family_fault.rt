// Why a file gives no family.

use std::alloc::AllocError;
use thiserror::Error;

/// Why a file gives no family. Rows are the file's lines, counted from 1.
#[derive(Clone, Copy, Debug, PartialEq, Eq, Error)]
pub enum FamilyFault {
    /// The line is no set within braces, or a word within the braces is no name.
    #[error("line {row} is no set")]
    BadLine { row: usize },
    /// A name in the line is that of no item.
    #[error("line {row} has a name that no item has")]
    UnknownItem { row: usize },
    /// The line has the set of an earlier line, `first`.
    #[error("line {row} has the set of line {first}")]
    Repeat { row: usize, first: usize },
    /// The line has one set too many.
    #[error("line {row} has one set too many")]
    TooMany { row: usize },
    /// Memory ran out.
    #[error("out of memory")]
    Memory(AllocError),
}
