//! The boards of the rows.
use std::alloc::Allocator;
use switchboard::{Board, LockPerBox, Mail, OneLock};

/// A message of the rows, which fits every mailbox.
#[derive(Clone, Copy, PartialEq, Eq)]
pub(crate) struct Letter(pub(crate) u8);

impl Mail<()> for Letter {
    ghost use Rattle.std.specs.Prelude.{ℕ};

    ghost fits = { λ world mailbox message. Unit {0} };
}

/// A board of letters.
pub(crate) trait Letters: Board<Letter, (), Self::Heap> {
    type Heap: Allocator;
}

impl<A: Allocator> Letters for OneLock<Letter, (), A> {
    type Heap = A;
}

impl<A: Allocator> Letters for LockPerBox<Letter, (), A> {
    type Heap = A;
}
