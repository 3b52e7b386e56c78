//! The test on a family of sets: whether it is a learning space, and if not, by which of its sets.
#![tactic(auto)]

mod gradation;
mod space;
mod submembers;
mod unions;

pub use gradation::test_base;
pub use ls_theory::{BaseVerdict, Verdict};
pub use space::test;
