//! Classes: tables that say which items each pupil gets right, and the replay of a class: each
//! pupil's assessment, answered by its table, in halves on threads.
#![tactic(auto)]

mod class;
mod class_fault;
mod class_table;
mod columns;
mod gate;
mod group;
mod halves;
mod laws;
mod marks;
mod parting;
mod tree;

pub use class::run_class;
pub use class_fault::ClassFault;
pub use class_table::{ClassTable, MOST_CLASS_PUPILS};
pub use gate::{Gate, OpenGate};
pub use laws::results_have_the_names_of_the_rows;
pub use ls_files::{ClassResult, Results};
pub use ls_weight::WeightFault;
