// Commands whose names are resolved.
use ls_set::{CursorFault, ItemList, ItemSet, Query};
use ls_theory::Ratios;

/// What is asked of an interview that stays as it is.
#[derive(Drop)]
pub enum View {
    /// What the answers tell of a query.
    Known {
        query: Query,
    },
    /// The next question.
    Ask,
    /// At most `count` states: those after a set, or the first ones; or why the cursor's text is
    /// none.
    States {
        count: u32,
        after: Result<Option<ItemSet>, CursorFault>,
    },
    /// The base of the states.
    Base,
    /// The surmise function of the states.
    Surmise,
    /// Whether the states are a learning space.
    Learning,
    /// At most `count` states of the projection on a part of the items: those after a set, or the
    /// first ones; or why the cursor's text is none.
    Project {
        part: ItemSet,
        count: u32,
        after: Result<Option<ItemSet>, CursorFault>,
    },
    /// The base of the projection on a part of the items, and whether it is a learning space.
    ProjectBase {
        part: ItemSet,
    },
    /// The fringes of a state.
    Fringes {
        set: ItemSet,
    },
    /// The state with these two fringes.
    StateOf {
        inner: ItemSet,
        outer: ItemSet,
    },
    /// At most `count` learning paths: those after an order of the items, or the first ones.
    Paths {
        count: u32,
        after: Option<ItemList>,
    },
    /// The least skill map of the states.
    SkillMap,
    /// The surmise relation of the states.
    Relation,
}

/// How an interview is to change.
#[derive(Clone, Copy)]
pub enum Edit {
    /// Questions are asked of sets of 1 to `size` items.
    Blocks { size: u32 },
    /// The expert answers a query.
    Answer { query: Query, yes: bool },
    /// The answer with the number is taken back.
    Retract { number: u64 },
}

/// What is asked of the safe interview, or done with it.
#[derive(Clone, Copy)]
pub enum SafeRequest {
    /// It begins with the states of the interview.
    Open,
    /// The expert answers Yes to a query.
    Answer {
        query: Query,
    },
    /// The answers, and which of them are applied.
    List,
    /// At most `count` states that remain: those after a set, or the first ones; or why the
    /// cursor's text is none.
    States {
        count: u32,
        after: Result<Option<ItemSet>, CursorFault>,
    },
    /// It ends.
    Close,
}

/// How the settings are to change.
#[derive(Clone, Copy)]
pub enum Setting {
    /// Each item has the ratios.
    All { ratios: Ratios },
    /// An item has the ratios.
    Item { item: u32, ratios: Ratios },
    /// The most replies, and the share, in hundredths, that ends an assessment.
    Limits { budget: u64, share: u64 },
}

/// What is asked of a pupil, or done with it.
#[derive(Clone, Copy)]
pub enum PupilRequest {
    /// The pupil begins.
    Begin,
    /// What is asked next.
    Question,
    /// The pupil replies on an item.
    Reply { item: u32, right: bool },
    /// What is known of the pupil.
    Report,
    /// The pupil is taken out.
    Close,
}

/// What a file gives a start by.
#[derive(Clone, Copy)]
pub enum StartFile {
    /// The clauses of each item.
    Surmise,
    /// Sets, whose unions the states are.
    Base,
    /// Pairs of a lower and a higher item.
    Relation,
}

/// How a skill map delineates states: a pupil with some skills can solve the items that have one of
/// them, or those whose skills are all among them.
#[derive(Clone, Copy)]
pub enum SkillModel {
    Disjunctive,
    Conjunctive,
}
