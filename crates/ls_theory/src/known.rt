// What the standing answers tell of a query.

/// What the standing answers tell of a query: that it is Yes, that it is No by the answer with the
/// number `by`, or neither.
#[derive(Clone, Copy, PartialEq, Eq)]
pub enum Known {
    Yes,
    No { by: u64 },
    Unsettled,
}
