//! A session: what a line does, decided and then written.
#![tactic(auto)]

mod decider;
mod session;
mod step_fault;

pub use session::Session;
pub use step_fault::StepFault;
