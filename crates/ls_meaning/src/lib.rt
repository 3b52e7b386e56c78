//! The meaning of the whole program, as functions on lists of bytes, which stand in specs/; and the
//! data types of which they speak: what a command asks, and what it is answered.
#![tactic(auto)]

mod families;
mod faults;
mod file_faults;
mod laws;
mod notices;
mod request;
mod response;
mod safe;

pub use families::{DualStates, MeshStates, SurmiseClauses, UnionStates};
pub use faults::reason_word;
pub use laws::{looking_lines_change_nothing, refused_lines_change_nothing};
pub use notices::{Detail, Notice};
pub use request::{Edit, PupilRequest, SafeRequest, Setting, SkillModel, StartFile, View};
pub use response::{Refusal, Response, Shown};
pub use safe::{count_applied, count_pending};
