//! What a pass of a board with a lock for each mailbox knows, as the rule of its table sees it.
use crate::calls::Abort;
use crate::world::Shown;
use post_ledger::Entry;
use std::collections::LinkedList;
use ticket_lock::Hand;

/// What the table of a board is told once: the world of its messages, the number of its mailboxes, and the opening
/// post.
#[derive(Drop)]
pub struct Ground<M, W> {
    pub(crate) world: Shown<W>,
    pub(crate) boxes: u8,
    pub(crate) to: u8,
    pub(crate) first: M,
}

/// What was seen of a board: an order of its events, its first abort, and whether it is closed. No value of it is made.
pub struct Seen<M> {
    pub(crate) order: LinkedList<Entry<M>>,
    pub(crate) aborted: Option<Abort>,
    pub(crate) knows: bool,
}

/// A pass's own part: its number, the events that it made, and whether it made an abort. No value of it is made.
pub struct Own<M> {
    pub(crate) number: u64,
    pub(crate) events: LinkedList<Entry<M>>,
    pub(crate) made: bool,
}

/// What a seat knows of a board, and has of its locks. No value of it is made.
pub struct Knowing<M, W, T> {
    /// What the table was told, for each of its passes.
    pub(crate) boards: LinkedList<Ground<M, W>>,
    /// What it has of the lock of each mailbox.
    pub(crate) hands: LinkedList<Hand<T>>,
    /// The passes whose seat it is.
    pub(crate) lanes: LinkedList<Own<M>>,
    pub(crate) seen: Seen<M>,
    /// What it was told and has not yet taken in.
    pub(crate) told: Seen<M>,
    /// How many it has in the count of outstanding posts: of Posts that it has counted up and not yet recorded, and of
    /// Dones that it has recorded and not yet counted down.
    pub(crate) owes: u64,
    /// How many Posts it may still count up.
    pub(crate) budget: u64,
    /// The job under which the Post is made that it has counted up.
    pub(crate) under: u64,
}
