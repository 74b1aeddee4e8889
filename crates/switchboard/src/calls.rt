//! What the calls of a board take and return.
use std::marker::Model;

/// The right to post, which comes from taking a message. It must be spent, by `done` or by `abort`. Contracts see
/// it as the number of its take.
pub struct Job {
    pub(crate) take: u64,
}

impl Model for Job {
    ghost use Rattle.std.specs.Prelude.{ℕ};

    ghost Value = { ℕ };

    ghost view = { λ j. j.take };
}

impl Job {
    ghost use Rattle.std.specs.Prelude.{◌≡◌};

    /// The number of the take that it comes from, among the takes of its mailbox, counted from 0.
    pub fn number(&self) -> u64
        ensures { result ≡ self.now }
    {
        self.take
    }
}

/// What a take returns.
pub enum Taken<M> {
    /// The oldest message of the mailbox that was not yet taken, and the right to post until it is completed.
    Message(Job, M),
    /// Every message of the mailbox is taken.
    Empty,
    /// All messages of the board are taken and completed.
    Closed,
    /// The board was aborted.
    Aborted,
}

/// Why a post was refused. The message comes back.
#[derive(Clone, Copy, Debug, PartialEq, Eq)]
pub enum PostFault<M> {
    /// The pass has used up its calls.
    Spent(M),
    /// There was no memory.
    Memory(M),
    /// The board was aborted.
    Aborted(M),
}

/// Why a board is aborted.
#[derive(Clone, Copy)]
pub enum Cause {
    /// There was no memory.
    Memory,
    /// A procedure has too many edges.
    EdgeLimit,
    /// A thread was refused.
    NoWorker,
    /// A pass has used up its calls.
    Spent,
}

/// The abort of a board.
#[derive(Clone, Copy)]
pub struct Abort {
    /// The number of the pass that made it.
    pub by: u8,
    /// Its cause.
    pub cause: Cause,
}
