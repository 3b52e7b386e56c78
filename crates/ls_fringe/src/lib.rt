//! The fringes of a state, the state that two fringes tell, and how fringes are printed.
#![tactic(auto)]

mod laws;
mod printing;
mod telling;

pub use laws::fringes_are_read_back;
pub use printing::print_fringes;
pub use telling::{fringes, state_of};
