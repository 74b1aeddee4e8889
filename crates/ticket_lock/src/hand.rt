//! What one seat knows of a lock.
use std::collections::LinkedList;

/// What one seat has seen of a lock, and has of it. No value of it is made.
pub struct Hand<T> {
    /// The opening value and each value left, in order, as far as seen.
    pub seen: LinkedList<T>,
    /// The tickets that wait.
    pub tickets: LinkedList<u64>,
    /// The ticket that it is inside with, if any.
    pub inside: LinkedList<u64>,
    /// All tickets that it ever drew.
    pub drawn: LinkedList<u64>,
    /// Its shares of the right to draw, of which there are 64 at most.
    pub parts: u64,
}
