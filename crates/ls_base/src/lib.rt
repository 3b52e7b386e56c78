//! Bases of knowledge spaces: the atoms, of which each state is a union, and what a Yes answer
//! makes of them.
#![tactic(auto)]

mod atoms;
mod base;
mod fault;
mod followed;
mod groups;
mod least;
mod left;
mod own;
mod reduction;
mod trail;
mod unions;

pub use atoms::is_atom_at;
pub use base::{Base, MOST_BASE_SETS};
pub use fault::PastFault;
pub use followed::Followed;
pub use ls_theory::BaseFault;
pub use own::{own_items, own_items_but, single_items};
pub use reduction::{needed_sets, put_in_order};
pub use trail::{MOST_KEPT_SETS, Trail};
