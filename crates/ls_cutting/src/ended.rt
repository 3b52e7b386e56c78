// How a line of a stream ended.

/// How a line of a stream ended.
#[derive(Clone, Copy, PartialEq, Eq)]
pub enum Ended {
    /// The line has at most as many bytes as are read.
    Whole,
    /// The line has `bytes` bytes, more than are read; they are not kept.
    Long { bytes: u64 },
}
