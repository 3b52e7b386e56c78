// Answers of an expert.
use ls_set::Query;

/// An answer that stands: its number, its query, and whether it is Yes.
#[derive(Clone, Copy, PartialEq, Eq)]
pub struct Answer {
    pub number: u64,
    pub query: Query,
    pub yes: bool,
}
