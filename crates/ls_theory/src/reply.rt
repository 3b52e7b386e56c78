// Replies of a pupil.

/// A pupil's reply to the item `q`, right or wrong.
#[derive(Clone, Copy, PartialEq, Eq)]
pub struct Reply {
    pub q: u32,
    pub right: bool,
}
