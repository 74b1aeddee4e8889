//! The board behind one lock.

pub(crate) mod board;
pub(crate) mod book;
pub(crate) mod lanes;
pub(crate) mod pass;
