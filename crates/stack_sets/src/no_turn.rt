//! Why a turn comes to no result.

use std::alloc::AllocError;

/// Why a turn comes to no result.
#[derive(Clone, Copy, PartialEq, Eq, Debug)]
pub enum NoTurn {
    /// Memory was refused.
    Memory,
    /// The work that was left is done.
    Limit,
}

impl From<AllocError> for NoTurn {
    fn from(_: AllocError) -> Self {
        NoTurn::Memory
    }
}
