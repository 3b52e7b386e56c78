//! Kinds of values in saved sessions, written and read: numbers, words, sets, queries, answers,
//! ratios, names and starts, lists and pairs of them, and what objects have at their keys.
#![tactic(auto)]

mod apart;
mod blocks;
mod formats;
mod keys;
mod lists;
mod names;
mod objects;
mod part_fault;
mod queries;
mod ratios;
mod single;
mod starts;

pub use apart::are_apart;
pub use blocks::read_block;
pub use formats::{FromValue, ToValue};
pub use keys::{put_at, read_at, read_list_at, text_value};
pub use lists::{read_list, write_list};
pub use names::{names_value, read_domain};
pub use objects::read_object;
pub use part_fault::PartFault;
pub use ratios::{put_settings, read_limits, read_odds, read_version};
pub use starts::{read_start, start_value};
