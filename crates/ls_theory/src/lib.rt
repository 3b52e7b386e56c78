//! The definitions of the theory, over explicit lists of sets, in specs/; and the data types of
//! which they speak.
#![tactic(auto)]

mod answer;
mod answer_fault;
mod asked;
mod base_fault;
mod block_fault;
mod fringe_pair;
mod known;
mod listing;
mod no;
mod outcome;
mod ratio;
mod reason;
mod replay;
mod reply;
mod reply_fault;
mod surmise_fault;
mod verdict;

pub use answer::Answer;
pub use answer_fault::AnswerFault;
pub use asked::Asked;
pub use base_fault::BaseFault;
pub use block_fault::BlockFault;
pub use fringe_pair::FringePair;
pub use known::Known;
pub use listing::Listing;
pub use no::No;
pub use outcome::Outcome;
pub use ratio::{Ratio, Ratios};
pub use reason::Reason;
pub use replay::Replay;
pub use reply::Reply;
pub use reply_fault::ReplyFault;
pub use surmise_fault::SurmiseFault;
pub use verdict::{BaseVerdict, Verdict};
