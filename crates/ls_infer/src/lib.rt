//! What the standing answers of an interview tell, by the closures of its block sets.
#![tactic(auto)]

mod block_closures;
mod breaking;
mod changing;
mod closures;
mod enough;
mod entailing;
mod forcing;
mod laws;
mod narrowing;
mod search;
mod standing_no;
mod table;
mod witnesses;
mod yes_change;

pub use laws::told_is_forced;
pub use ls_theory::{Known, No};
pub use table::Table;
