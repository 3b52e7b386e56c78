// Answers of a safe interview.
use ls_set::Query;

/// A Yes answer that was accepted: its number, its query, and whether it is applied. One that isn't
/// waits.
#[derive(Clone, Copy)]
pub struct SafeAnswer {
    pub number: u64,
    pub query: Query,
    pub applied: bool,
}
