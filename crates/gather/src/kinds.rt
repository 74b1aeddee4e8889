//! The boards and the sets that workers may work with, and those that a crew of threads may.
use flow_graph::Graphs;
use path_sets::{DiagramEdges, OrderedEdges, PathSet};
use std::alloc::Allocator;
use summaries::Due;
use switchboard::{Board, LockPerBox, OneLock};

/// A board of flow graphs, with all of it in memory of one allocator.
pub trait WorkBoard: Board<Due, Graphs<Self::Heap>, Self::Heap> {
    type Heap: Allocator + Copy;
}

impl<A: Allocator + Copy> WorkBoard for OneLock<Due, Graphs<A>, A> {
    type Heap = A;
}

impl<A: Allocator + Copy> WorkBoard for LockPerBox<Due, Graphs<A>, A> {
    type Heap = A;
}

/// A set of path edges in memory of one allocator.
pub trait WorkSet: PathSet<Self::Heap> {
    type Heap: Allocator + Copy;
}

impl<A: Allocator + Copy> WorkSet for OrderedEdges<A> {
    type Heap = A;
}

impl<A: Allocator + Copy> WorkSet for DiagramEdges<A> {
    type Heap = A;
}

/// A board that threads may share, and whose passes may go to them.
pub trait CrewBoard: WorkBoard<Heap: Send + Sync>
    + Board<Due, Graphs<Self::Heap>, Self::Heap, Pass: Send + Drop>
    + Sync
    + Drop {}

impl<A: Allocator + Copy + Send + Sync> CrewBoard for OneLock<Due, Graphs<A>, A> {}

impl<A: Allocator + Copy + Send + Sync> CrewBoard for LockPerBox<Due, Graphs<A>, A> {}

/// A set of path edges that may go to a thread.
pub trait CrewSet: WorkSet<Heap: Send + Sync> + Send {}

impl<A: Allocator + Copy + Send + Sync> CrewSet for OrderedEdges<A> {}

impl<A: Allocator + Copy + Send + Sync> CrewSet for DiagramEdges<A> {}
