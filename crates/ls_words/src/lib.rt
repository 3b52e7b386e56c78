//! The words of the command line, and what they ask for.
#![tactic(auto)]

mod mode;
mod reading;
mod words_fault;

pub use mode::Mode;
pub use reading::read_words;
pub use words_fault::WordsFault;
