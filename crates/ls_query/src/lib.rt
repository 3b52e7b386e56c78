//! The blocks of an interview: the sets of the first sizes in the order of queries, and their good
//! queries, one after another without memory.
#![tactic(auto)]

mod asking;
mod blocks;
mod counting;
mod moving;
mod placing;
mod turns;
mod walk;

pub use blocks::Blocks;
pub use counting::MOST_SETS;
pub use ls_theory::BlockFault;
pub use turns::each_comes_in_turn;
pub use walk::BlockWalk;
