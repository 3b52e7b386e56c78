//! The room of a reply, of fixed size, and what says words, lines, names and sets into it.
#![tactic(auto)]

mod lines;
mod room;
mod set_texts;
mod text_list;

pub use lines::{put_line, put_more, put_numbered};
pub use room::{ROOM, Room};
pub use set_texts::SetTexts;
