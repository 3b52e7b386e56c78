// Verdicts on families.
use ls_set::{ItemSet, SetList};

/// What a family of sets is: the first of these that holds.
#[derive(Drop)]
pub enum Verdict {
    /// It lacks the empty set.
    NoEmpty,
    /// It lacks the full set.
    NoFull,
    /// It lacks the union of two members.
    NotClosed {
        left: ItemSet,
        right: ItemSet,
    },
    /// It is a space that is not well graded; the set of its base is an atom at both items.
    NotGraded {
        set: ItemSet,
        first: u32,
        second: u32,
    },
    /// It is a learning space, with its base.
    Learning {
        base: SetList,
    },
}

/// Whether a space is a learning space.
#[derive(Clone, Copy, PartialEq, Eq)]
pub enum BaseVerdict {
    /// It is not: the set of its base is an atom at both items.
    NotGraded {
        set: ItemSet,
        first: u32,
        second: u32,
    },
    Learning,
}
