//! What a seat at the table knows.

use std::alloc::Global;
use std::collections::LinkedList;

/// What a seat at the table knows. No value of it is made: contracts alone see it.
pub enum Knows<T> {
    /// Nothing: what it knew went to another seat.
    Spent,
    /// The root: the first value, how many passes were made, and of each pass that came back its number and the value
    /// that it has last seen.
    Rooted(T, u64, LinkedList<(u64, T), Global>),
    /// A pass: its number and the value that it has last seen.
    Idle(u64, T),
    /// The same, with its ticket.
    Waiting(u64, T, u64),
    /// The same, with the value that was taken.
    Holding(u64, T, u64, T),
}
