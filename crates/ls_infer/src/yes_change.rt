// Changes of the Yes answers.

/// How the standing Yes answers change by one.
#[derive(Clone, Copy, PartialEq, Eq)]
pub enum YesChange {
    /// One comes.
    Added,
    /// One is taken back.
    Removed,
}
