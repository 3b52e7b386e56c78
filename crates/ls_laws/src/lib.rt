//! The laws of the theory: what follows from its definitions alone. Each is a clause of a function
//! that does nothing when it runs, so that a proof can cite it as that function's promise.
#![tactic(auto)]

mod after_yes;
mod assessments;
mod bases;
mod changes;
mod forced;
mod fringes;
mod gradation;
mod spaces;

pub use after_yes::{atoms_are_least, base_after_yes};
pub use assessments::{masses_are_sums, share_comes_before_budget};
pub use bases::{
    base_of_spanning, base_spans, family_is_compatible_with_its_base, spanned_by, spans_after_yes,
};
pub use changes::{answers_stay_in_order, changes_keep_a_space, yes_cuts_compatible_sets};
pub use forced::{
    closures_decide, closures_tell, forced_once, least_number_is_told, search_is_over_all_spaces,
    settled_leaves_one, what_is_left_decides,
};
pub use fringes::{fringes_have, fringes_lead_on, fringes_tell};
pub use gradation::{graded_by_atoms, judged_by_atoms};
pub use spaces::{
    compatible_sets_are_a_space, interiors_are_greatest, interiors_grow, projections_are_spaces,
};
