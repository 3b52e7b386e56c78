//! Saved sessions in code: the parts of a session are printed, and read again. What is written for
//! a whole session is read as that session.
#![tactic(auto)]

mod fault;
mod inquiries;
mod laws;
mod parts;
mod printing;
mod pupils;
mod reading;
mod replaying;
mod saved;
mod written_pupils;

pub use fault::SessionFault;
pub use laws::{sessions_are_read_back, tests_tell_what_stands};
pub use ls_files::Cause;
pub use ls_pupils::PupilCases;
pub use parts::Parts;
pub use printing::print_parts;
pub use pupils::read_pupils;
pub use reading::read_parts;
pub use saved::{Saved, print_session, read_session};
pub use written_pupils::cases_value;
