// Why a reply is refused.
use crate::reason::Reason;

/// Why a pupil's reply is refused.
#[derive(Clone, Copy, Debug, PartialEq, Eq)]
pub enum ReplyFault {
    /// The assessment is over.
    Over(Reason),
    /// The item isn't the one that is asked.
    WrongItem { asked: u32 },
}
