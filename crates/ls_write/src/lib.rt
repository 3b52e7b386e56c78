//! The writer: each line of a reply, said into a room of fixed size, and from there to a sink.
#![tactic(auto)]

mod assessing;
mod classes;
mod done;
mod judging;
mod listing;
mod path_text;
mod refusals;
mod relations;
mod responses;
mod safe;
mod skills;
mod structures;
mod surmise;
mod walking;

pub use done::{put_agreed, put_done};
pub use ls_room::{ROOM, Room, SetTexts};
pub use refusals::put_refusal;
pub use responses::{put_bare, put_response, put_shown};
