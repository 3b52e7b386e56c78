// The words of a line of a file of pairs so far.

/// What the words so far are: none, one name or two, each with the item that has it, or no pair of
/// names.
#[derive(Clone, Copy)]
pub(crate) enum Met {
    Nothing,
    One { low: Option<u32> },
    Two { low: Option<u32>, high: Option<u32> },
    Bad,
}
