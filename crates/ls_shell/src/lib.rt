//! A run over a script as it comes, and the top call.
#![tactic(auto)]

mod drilling;
mod named;
mod reading;
mod run;
mod run_fault;
mod status;
mod top;

pub use ls_session::{Session, StepFault};
pub use status::Status;
pub use top::lspace;
