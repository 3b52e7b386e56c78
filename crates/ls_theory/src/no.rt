// Answers that are No.
use ls_set::Query;

/// An answer that stands and is No: its number and its query.
#[derive(Clone, Copy, PartialEq, Eq)]
pub struct No {
    pub number: u64,
    pub query: Query,
}
