//! Skill maps: read from a file, made of a base, printed; the bases of their disjunctive states;
//! and the pages of their conjunctive states, which are the sets whose complements are disjunctive
//! ones.
#![tactic(auto)]

mod duals;
mod gathering;
mod laws;
mod next;
mod of_base;
mod page;
mod printing;
mod reading;
mod skill_map;
mod skills;

pub use duals::{duals_follow_words, members_are_lowered};
pub use laws::skill_maps_are_read_back;
pub use next::next_dual;
pub use page::page_dual;
pub use reading::MOST_SKILLS;
pub use skill_map::SkillMap;
pub use skills::{bases_are_least_maps, bases_give_the_same_states, skills_make_unions};
