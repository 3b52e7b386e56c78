// Safe interviews, with what stood at their opening.
use ls_expert::Start;
use ls_safe::Safe;
use ls_set::QueryList;

/// A safe interview, with the start and the Yes queries that stood at its opening.
#[derive(Drop)]
pub struct SafeCase {
    pub start: Start,
    pub yes: QueryList,
    pub safe: Safe,
}
