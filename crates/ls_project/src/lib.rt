//! Projections of families on a part of their items.
#![tactic(auto)]

mod base;
mod trace;

pub use base::project_base;
pub use trace::Trace;
