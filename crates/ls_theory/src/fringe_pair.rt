// Pairs of fringes.
use ls_set::ItemSet;

/// The two fringes of a state.
#[derive(Clone, Copy, PartialEq, Eq)]
pub struct FringePair {
    /// The items of the state whose removal gives a state.
    pub inner: ItemSet,
    /// The items outside the state whose addition gives a state.
    pub outer: ItemSet,
}
