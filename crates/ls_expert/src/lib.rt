//! The interview of an expert: an inquiry, and the base of what is left, followed over the Yes
//! answers.
#![tactic(auto)]

mod bad_query;
mod inquiry;
mod interview;
mod retract_fault;
mod standing_fault;
mod start_fault;

pub use bad_query::BadQuery;
pub use inquiry::Inquiry;
pub use interview::Interview;
pub use ls_standing::{MOST_ANSWERS, MOST_NUMBER, OnItems, Start};
pub use ls_theory::{Answer, AnswerFault, Known, No};
pub use retract_fault::RetractFault;
pub use standing_fault::StandingFault;
pub use start_fault::StartFault;
