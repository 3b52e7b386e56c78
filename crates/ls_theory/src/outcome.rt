// What an assessment tells.
use ls_set::ItemSet;

/// The first state of greatest weight, its weight, the weight of all states, and the number of
/// replies.
#[derive(Clone, Copy, PartialEq, Eq)]
pub struct Outcome {
    pub state: ItemSet,
    pub weight: u128,
    pub total: u128,
    pub replies: u64,
}
