//! The events of a mailbox.

/// One event of a mailbox.
#[derive(Clone, Copy, PartialEq, Eq)]
pub enum Event<M> {
    /// A message was put in by a sender.
    Post { sender: u8, message: M },
    /// The oldest message not yet taken was taken out.
    Take { sender: u8, message: M },
    /// The take with this number, counted from 0, is completed.
    Done { take: u64 },
}
