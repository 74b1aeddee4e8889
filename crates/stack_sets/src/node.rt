//! Nodes.

use std::alloc::Allocator;
use turns::NumberedFrame;

/// A frame over the stacks of the node with this number.
#[derive(Clone, Copy, PartialEq, Eq, Hash, Debug)]
pub struct Head {
    pub frame: NumberedFrame,
    pub below: usize,
}

/// A set of stacks.
#[derive(Drop)]
pub struct Node<A: Allocator> {
    /// Whether the empty stack is in it.
    pub bare: bool,
    pub heads: Vec<Head, A>,
}
