// Why a text is no saved session.

/// The part of a saved session that fails. The parts are tried in this order.
#[derive(Clone, Copy, Debug, PartialEq, Eq)]
pub enum Cause {
    /// The bytes are no object.
    Json,
    /// The version is neither 1 nor 2.
    Version,
    /// The names are not those of a domain.
    Items,
    /// The most replies or the share is out of its range.
    Limits,
    /// There are not two ratios for each item.
    Odds,
    /// The start is of no form, or breaks the conditions of its form.
    Start,
    /// No blocks are made up to the size.
    Block,
    /// The answers or the next number are of no form, or do not stand.
    Answers,
    /// A pupil fails, or there are too many, or two of one name.
    Pupils,
}
