//! The drill: an order on items, made from a number, is hidden; a simulated expert who knows it is
//! interviewed until no question is open; and what came out is summed up in six lines.
#![tactic(auto)]

mod asked;
mod closing;
mod counting;
mod drawing;
mod drill;
mod hidden;
mod settling;
mod states;
mod summary;
mod text;
mod turns;

pub use drill::run_drill;
pub use hidden::{Hidden, MOST_DRILLED};
pub use settling::drills_are_settled;
pub use summary::{MOST_STATES, Summary};
pub use text::print_summary;
