//! What commands do to the parts of a session: the interview begins, changes and is shown, with the
//! trail of its bases; the safe interview is attended to; and files are fetched.
#![tactic(auto)]

mod attending;
mod based;
mod case;
mod changing;
mod deciding;
mod families;
mod fetching;
mod meshes;
mod opening;
mod safe;
mod skills;
mod starting;
mod starts;
mod viewing;

pub use attending::{attend_safe, is_opening};
pub use based::decide_based;
pub use case::SafeCase;
pub use changing::change;
pub use deciding::{decide, is_based};
pub use families::test_sets;
pub use fetching::{fetch, fetch_both};
pub use meshes::{TwoFiles, agreement, page_of_mesh};
pub use opening::open_safe;
pub use safe::ask_safe;
pub use skills::delineate;
pub use starting::start_from;
pub use starts::read_start;
pub use viewing::show;
