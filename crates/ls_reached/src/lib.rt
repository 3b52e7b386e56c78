//! A law of the sessions that scripts reach. It is the clauses of a function that does nothing when
//! it runs.
#![tactic(auto)]

mod reached;

pub use reached::reached_sessions_are_whole;
