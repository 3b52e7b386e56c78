//! Families under many rules, of which the members are listed: the rules by the items of their sets
//! A.
#![tactic(auto)]

mod block;
mod blocks;
mod columns;
mod falling;

pub use columns::Columns;
