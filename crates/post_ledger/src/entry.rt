//! The events of a board with several mailboxes.

/// One event of a board. A board's events, in one list, are an order; its projections are a history for each
/// mailbox and an own list for each pass.
#[derive(Clone, Copy)]
pub enum Entry<M> {
    /// A sender posted a message to a mailbox, under the job of the sender's Take of the number `under`. The
    /// opening post is under no job, and has 0 there.
    Posted {
        to: u8,
        sender: u8,
        message: M,
        under: u64,
    },
    /// The oldest message of a mailbox that was not yet taken was taken from it.
    Taken {
        of: u8,
        sender: u8,
        message: M,
    },
    /// The Take of this number of a mailbox, counted from 0 in that mailbox, is completed.
    Completed {
        of: u8,
        take: u64,
    },
}
