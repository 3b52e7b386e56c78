//! Laws of surmise functions, of starts, of lists that span a family, and of the search for a
//! member: what follows from the definitions alone. Each is a clause of a function that does nothing
//! when it runs.
#![tactic(auto)]

mod members;
mod projections;
mod speaking;
mod starts;
mod surmise;
mod unions;

pub use members::members_are_found;
pub use projections::{projections_are_families, projections_are_spanned};
pub use speaking::verdicts_speak_of_items;
pub use starts::{base_starts_are_spaces, starts_are_spaces};
pub use surmise::{
    clauses_are_atoms, clauses_meet_unions, families_have_clauses,
    flawless_clauses_are_surmise_functions, interiors_by_clauses,
};
pub use unions::{atoms_from_spanning, unions_by_fewer, unions_by_spanning, verdicts_by_unions};
