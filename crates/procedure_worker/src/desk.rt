//! What a worker works with.
use flow_graph::Graphs;
use std::alloc::Allocator;
use summaries::EdgeLimit;

/// What the workers of a board share, and never change: the handle by which they wait, the board, the gate, the flow
/// graphs of all procedures, and how many path edges a table may keep.
#[derive(Drop)]
pub struct Context<'c, 'g, R, G: Allocator, B, K> {
    /// The handle by which they wait.
    pub rt: &'c R,
    /// Where they take and post messages.
    pub board: &'c B,
    /// What is called at each take and post.
    pub gate: &'c K,
    /// The flow graphs of all procedures.
    pub graphs: &'g Graphs<G>,
    /// How many path edges a table may keep.
    pub limit: EdgeLimit,
}

/// What one worker works with, and never changes: what it shares with the others, and the number of its procedure.
#[derive(Drop)]
pub(crate) struct Desk<'c, 'g, R, G: Allocator, B, K> {
    pub(crate) context: &'c Context<'c, 'g, R, G, B, K>,
    pub(crate) number: u8,
}
