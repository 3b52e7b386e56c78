//! Trials of tables, of interviews whose base is followed, of pages of conjunctive states, of saved
//! sessions, of limits that no script reaches, and of the threads of a class. It has tests alone.
#![tactic(auto)]

#[cfg(test)]
mod classes;
#[cfg(test)]
mod duals;
#[cfg(test)]
mod families;
#[cfg(test)]
mod gates;
#[cfg(test)]
mod interviews;
#[cfg(test)]
mod sessions;
#[cfg(test)]
mod tally;
