// Why clauses are no surmise function.
use std::alloc::AllocError;
use thiserror::Error;

/// Why clauses that are read are no surmise function. Items are told by their numbers, the clauses
/// of an item by theirs, counted from 1 as they stand. Of faults of one kind that of the least item
/// is told, then that of its first clause, then that of the least other item or the first later
/// clause.
#[derive(Clone, Copy, Debug, PartialEq, Eq, Error)]
pub enum SurmiseFault {
    /// The bytes are no object of arrays of arrays of texts.
    #[error("no object of clauses")]
    BadJson,
    /// A key, or a name in a clause, is that of no item.
    #[error("a name that no item has")]
    UnknownItem,
    /// The item has no clause.
    #[error("item {q} has no clause")]
    NoClause { q: u32 },
    /// The clause of the item lacks it.
    #[error("clause {clause} of item {q} lacks the item")]
    Reflexive { q: u32, clause: usize },
    /// The clause has an item `r` of which no clause lies within it.
    #[error("clause {clause} of item {q} has no clause of item {r}")]
    NotClosed { q: u32, clause: usize, r: u32 },
    /// Of the two clauses one lies within the other.
    #[error("clauses {first} and {second} of item {q} are comparable")]
    Comparable { q: u32, first: usize, second: usize },
    /// There are `count` distinct clauses, more than a base may have sets.
    #[error("{count} clauses are too many")]
    Wide { count: usize },
    /// Memory ran out.
    #[error("out of memory")]
    Memory(AllocError),
}
