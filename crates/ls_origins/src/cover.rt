// Covers of a relation.

/// A pair of items: the higher one covers the lower one.
#[derive(Clone, Copy)]
pub struct Cover {
    pub low: u32,
    pub high: u32,
}
