//! Surmise functions: for each item its clauses, of which some one is known to whoever knows the
//! item. They stand beside the base of the sets that meet them.
#![tactic(auto)]

mod fault;
mod flaws;
mod laws;
mod ordering;
mod printing;
mod reading;
mod search;
mod surmise;

pub use fault::FromFault;
pub use laws::surmise_functions_are_read_back;
pub use surmise::Surmise;
