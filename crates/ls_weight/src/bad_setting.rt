// Settings that are refused.
use thiserror::Error;

/// A ratio, the budget or the share is out of its range.
#[derive(Clone, Copy, Debug, PartialEq, Eq, Error)]
#[error("a ratio, the budget or the share is out of its range")]
pub struct BadSetting;
