//! Relations between items: for each item the items below it, and itself. They are read from files
//! of pairs and told by their covers, and are the surmise functions in which each item has one
//! clause.
#![tactic(auto)]

mod closing;
mod covering;
mod laws;
mod met;
mod pair_rows;
mod pairs;
mod printing;
mod reading;
mod relation;
mod relations;
mod surmising;

pub use laws::relations_are_read_back;
pub use pairs::{covers_generate_orders, pairs_make_the_least_preorder};
pub use printing::print_covers;
pub use relation::Relation;
pub use relations::{
    meets_need_one_clause, orders_are_learning_spaces, preorders_are_surmise_functions,
    relations_are_refused_at_first,
};
