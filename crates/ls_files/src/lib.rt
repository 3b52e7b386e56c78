//! What files say: set files, surmise files, skill files, files of pairs, class tables and saved
//! sessions; and what a session is.
//! Here are definitions and plain data alone; no file is touched. The readings stand in specs/, as
//! functions of the names and the bytes.
#![tactic(auto)]

mod cause;
mod class_results;
mod family_fault;
mod pair_line;
mod set_line;
mod version;

pub use cause::Cause;
pub use class_results::{ClassResult, Results};
pub use family_fault::FamilyFault;
pub use ls_origins::{PairFault, SkillFault};
pub use ls_theory::{BaseFault, SurmiseFault};
pub use pair_line::PairLine;
pub use set_line::SetLine;
pub use version::Version;
