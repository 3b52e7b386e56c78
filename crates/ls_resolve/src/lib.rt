//! What the words of commands mean on named items: each command is resolved once, and what carries
//! it out speaks of items.
#![tactic(auto)]

mod edits;
mod names;
mod pupils;
mod safe;
mod settings;
mod unnamed;
mod views;

pub use edits::resolve_edit;
pub use pupils::resolve_pupil;
pub use safe::resolve_safe;
pub use settings::resolve_setting;
pub use unnamed::{ResolveFault, Unnamed};
pub use views::{read_after, resolve_view};
