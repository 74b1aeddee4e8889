//! The board with a lock for each mailbox.

pub(crate) mod board;
pub(crate) mod close;
pub(crate) mod knowing;
pub(crate) mod open;
pub(crate) mod outstanding;
pub(crate) mod pass;
pub(crate) mod rule;
pub(crate) mod visiting;
