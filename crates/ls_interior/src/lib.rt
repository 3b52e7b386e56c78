//! Families of sets, known by their interiors, and the count of the interiors that are formed.
#![tactic(auto)]

mod counted;
mod family;
mod free;
mod listed;
mod steps;

pub use counted::Counted;
pub use family::{Inside, Interior, closure, is_member};
pub use free::Free;
pub use listed::Listed;
pub use steps::Steps;
