// What a pupil is asked.
use crate::reason::Reason;

/// The item that is asked next, or that the assessment is over.
#[derive(Clone, Copy, PartialEq, Eq)]
pub enum Asked {
    Item(u32),
    Over(Reason),
}
