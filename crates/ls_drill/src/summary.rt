// What a drill came to.

/// The most states that are counted.
pub const MOST_STATES: u32 = 65_536;

/// What a drill came to.
#[derive(Clone, Copy, PartialEq, Eq)]
pub struct Summary {
    /// How many items there are.
    pub n: u32,
    /// The number that made the hidden order.
    pub number: u64,
    /// How many queries were asked, and how many of these were answered Yes and No.
    pub asked: u32,
    pub asked_yes: u32,
    pub asked_no: u32,
    /// How many queries were not asked, and how many of these the answers force Yes and No.
    pub filled: u32,
    pub filled_yes: u32,
    pub filled_no: u32,
    /// How many sets the base has.
    pub base: u32,
    /// Whether the states are a learning space.
    pub learning: bool,
    /// How many states there are; `None` where there are more than 65,536.
    pub states: Option<u32>,
}
