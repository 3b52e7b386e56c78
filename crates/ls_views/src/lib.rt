//! The whole reply to a command that looks at an interview: decided, and written.
#![tactic(auto)]

mod reading;

pub use reading::view;
