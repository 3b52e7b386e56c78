//! Learning paths, one after another, found by interiors alone; and the laws of how a member grows
//! to all items, and how one path follows another.
#![tactic(auto)]

mod laws;
mod order;
mod paths;
mod steps;
mod walk;

pub use laws::{paths_are_found, paths_are_growths};
pub use order::Order;
pub use paths::{Paths, first_path, next_path};
pub use walk::Walk;
