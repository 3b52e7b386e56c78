//! The pupils of a session: how they begin, what they are asked and reply, and how they are closed;
//! and classes of pupils.
#![tactic(auto)]

mod asking;
mod attending;
mod beginning;
mod cases;
mod class;
mod setting;
mod states;

pub use attending::attend;
pub use beginning::MOST_PUPILS;
pub use cases::{PupilCase, PupilCases};
pub use class::assess_class;
pub use setting::set;
pub use states::MOST_STATES;
