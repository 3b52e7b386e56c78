// Why a line is no command.

use std::alloc::AllocError;
use thiserror::Error;

/// Why a line is no command.
#[derive(Clone, Copy, Debug, PartialEq, Eq, Error)]
pub enum LineFault {
    /// No form has the line. `place` is the number of its first word with which no command goes on,
    /// counted from 1; it is one more than the number of words where more words would make a
    /// command.
    #[error("the words are no command from word {place} on")]
    Shape { place: u32 },
    #[error("out of memory")]
    Memory(AllocError),
}
