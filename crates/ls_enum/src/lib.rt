//! The members of a family in order, found one after another by interiors alone.
#![tactic(auto)]

mod forward;
mod list_fault;
mod listing;
mod states;
mod successor;
mod widest;

pub use list_fault::ListFault;
pub use listing::{list_all, page, pages_join};
pub use ls_theory::Listing;
pub use states::States;
pub use successor::{first, first_left, next_after};
