//! The safe interview: an answer Yes is applied only where a learning space remains, and waits
//! otherwise. Its laws, of the passes over the waiting answers and of what need not be tried again,
//! are clauses of functions that do nothing when they run.
#![tactic(auto)]

mod marks;
mod open_fault;
mod passes;
mod safe;
mod trials;
mod trying;
mod turning;

pub use ls_origins::{SafeAnswer, SafeFault};
pub use marks::{marks_tell_what_waits, passes_over_marks};
pub use open_fault::OpenFault;
pub use passes::{
    passes_come_to_an_end, passes_go_from_the_front, safe_families_stay_learning_spaces,
};
pub use safe::{MOST_ANSWERS, Safe};
pub use trials::{
    doubles_stay, new_answers_are_tried_alone, trials_have_few_sets, trials_look_at_gradation,
    turns_go_step_by_step,
};
