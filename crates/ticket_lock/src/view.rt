//! What one seat knows of a lock that has a table of its own.
use crate::hand::Hand;
use std::collections::LinkedList;
use std::snapshot::Snapshot;

/// What a seat knows. No value of it is made.
pub struct View<T> {
    /// Its tickets, and the history that it has seen.
    pub hand: Hand<T>,
    /// A history that it was told of and has not yet taken in, if any.
    pub told: LinkedList<T>,
    /// The numbers of its lanes, each with the value that the lane left last, or the opening value.
    pub own: LinkedList<(u64, T)>,
}

/// What the table of a lock is told once.
pub struct Opening<T> {
    /// The opening value.
    pub value: Snapshot<T>,
    /// The number of lanes.
    pub lanes: u64,
}

impl<T> Drop for Opening<T> {
    fn drop(self) {
        let Opening { value, lanes: _ } = self;
        drop(value);
    }
}
