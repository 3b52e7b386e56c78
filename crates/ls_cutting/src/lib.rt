//! Lines cut from bytes, and their words.
#![tactic(auto)]

mod cutter;
mod ended;
mod kind;
mod number;
mod token;
mod word;
mod word_list;
mod word_text;

pub use cutter::{Cutter, LONGEST_LINE, lines_go_on};
pub use ended::Ended;
pub use kind::{GREATEST_NUMBER, Kind, MOST_COUNTED};
pub use number::number_up_to;
pub use token::{Token, Tokens, is_note, push_runs, without_return};
pub use word::Word;
pub use word_list::WordList;
