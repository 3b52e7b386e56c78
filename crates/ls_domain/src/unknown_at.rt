// A word that names no item.

use thiserror::Error;

/// The word at this index, counted from 0, names no item.
#[derive(Clone, Copy, Debug, PartialEq, Eq, Error)]
#[error("word {index} names no item")]
pub struct UnknownAt {
    pub index: usize,
}
