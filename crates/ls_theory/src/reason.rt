// Why an assessment is over.

/// Why an assessment is over: the leader has its share of the total weight, or the replies number
/// the budget.
#[derive(Clone, Copy, Debug, PartialEq, Eq)]
pub enum Reason {
    Share,
    Budget,
}
