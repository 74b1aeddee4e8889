//! What a worker returns.
use crate::memory::OutOfMemory;
use path_sets::PathSet;
use std::alloc::Allocator;
use summaries::Table;
use switchboard::Cause;

/// How a worker ended.
#[derive(Clone, Copy)]
pub enum End {
    /// All messages of the board are taken and completed.
    Closed,
    /// The board was aborted by another pass.
    Aborted,
    /// The worker aborted the board, for this cause.
    Failed(Cause),
}

/// What a worker returns: its table, how it ended, and evidence that memory was refused. What its pass took and posted
/// is in the histories of the board.
#[derive(Drop)]
pub struct Outcome<'g, G: Allocator, A: Allocator, S: PathSet<A>> {
    /// What `work` returns has one. In definitions an outcome may also stand for a lane without a thread; it has none.
    pub table: Option<Table<'g, G, A, S>>,
    /// How the worker ended.
    pub end: End,
    /// Evidence that memory was refused, if the worker failed for that.
    pub out_of_memory: Option<OutOfMemory>,
}
