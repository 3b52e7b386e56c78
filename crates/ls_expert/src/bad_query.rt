// Queries that are not good.

/// A query that is not good.
#[derive(Clone, Copy, PartialEq, Eq)]
pub struct BadQuery;
