//! What stands of an interview: its start, its answers, and the sets that they leave.
#![tactic(auto)]

mod answers;
mod few_rules;
mod on_items;
mod query_key;
mod saved;
mod start;

pub use answers::{
    answer_with, nos, opposed, put_last, rules_before, take_out, yes_others, yes_queries,
};
pub use few_rules::{Lent, leading};
pub use on_items::OnItems;
pub use query_key::QueryKey;
pub use saved::{MOST_ANSWERS, MOST_NUMBER, can_stand, each_no_broken, with_rules};
pub use start::Start;
