//! Trials of objects in memory, and of calls on lines, domains, bases, skill maps and covers that
//! the program doesn't make. It has tests alone; worked rows of definitions are computed in proofs/.
#![tactic(auto)]

#[cfg(test)]
mod cutting;
#[cfg(test)]
mod lines;
#[cfg(test)]
mod making;
#[cfg(test)]
mod objects;
#[cfg(test)]
mod printing;
#[cfg(test)]
mod tally;
