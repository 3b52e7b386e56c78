// Lines of a set file.
use ls_set::ItemSet;

/// What a line of a set file is: it is passed over, is no set, has a name that no item has, or is a
/// set.
#[derive(Clone, Copy)]
pub enum SetLine {
    Passed,
    Bad,
    Unknown,
    Set(ItemSet),
}
