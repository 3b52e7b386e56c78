//! The names of the items: how they are read, which item has which name, and how sets are read and
//! printed by them.
#![tactic(auto)]

mod domain;
mod domain_fault;
mod laws;
mod names;
mod table;
mod unknown_at;

pub use domain::Domain;
pub use domain_fault::DomainFault;
pub use laws::{domains_are_read, names_and_numbers_agree, sets_are_read_back};
pub use table::first_records;
pub use unknown_at::UnknownAt;
