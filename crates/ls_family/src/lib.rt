//! Families of sets that are given one by one, as they are read from a file: one set a line.
#![tactic(auto)]

mod family;
mod found;
mod laws;
mod member;
mod place;
mod set_line;

pub use family::Family;
pub use found::MOST_MEMBERS;
pub use laws::files_have_sets_of_items;
pub use ls_files::FamilyFault;
