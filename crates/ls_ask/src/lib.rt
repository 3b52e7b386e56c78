//! The half-split question and the leader.
#![tactic(auto)]

mod asking;

pub use asking::{half_split, leader};
