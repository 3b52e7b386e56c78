//! What stands where a domain does, and what commands do there: they look at it, change it, fetch
//! and store files.
#![tactic(auto)]

mod state;

pub use ls_deciding::fetch;
pub use state::State;
