//! Families cut down by rules: the members of an inner family that break no query of a list.
#![tactic(auto)]

mod barring;
mod followers;
mod index;
mod parts;
mod places;
mod round;
mod ruled;
mod sets;
mod singles;
mod waking;

pub use ruled::Ruled;
