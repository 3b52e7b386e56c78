// What a pupil's assessment by a table comes to.
use crate::reason::Reason;
use ls_set::ItemSet;

/// How an assessment ended: the number of replies, why it was over, and the first state of greatest
/// weight.
#[derive(Clone, Copy, PartialEq, Eq)]
pub struct Replay {
    pub replies: u64,
    pub reason: Reason,
    pub state: ItemSet,
}
