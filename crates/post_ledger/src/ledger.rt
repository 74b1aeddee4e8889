//! What a board returns at its end.
use crate::mailbox::Mailbox;
use std::alloc::Allocator;

/// What a board returns at its end.
#[derive(Drop)]
pub struct Ledger<M, A: Allocator> {
    /// The mailboxes by number, each with its whole history.
    pub histories: Vec<Mailbox<M, A>, A>,
    /// Whether all posts together are taken and completed.
    pub closed: bool,
}
