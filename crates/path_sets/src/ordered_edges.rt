//! A set of path edges that keeps them in order.

ghost use Rattle.language.specs.Lists.{NoneTwice, NoneTwice-prop};
ghost use Rattle.path_sets.specs.EdgeOrders.{triples_of};

use crate::path_set::PathSet;
use language::{Point, Word};
use std::alloc::{AllocError, Allocator};
use std::collections::BTreeSet;

/// A path edge. Their order is by entry, then by point, and then by valuation.
#[derive(Clone, Copy, PartialEq, Eq, PartialOrd, Ord)]
pub(crate) struct Edge {
    entry: Word,
    point: Point,
    values: Word,
}

/// Path edges in std's ordered set, one by one: plain, so that other sets may be compared with it.
#[derive(Drop)]
pub struct OrderedEdges<A: Allocator> {
    edges: BTreeSet<Edge, A>,
    ghost once: { NoneTwice (triples_of edges.keys) } by { NoneTwice-prop (triples_of edges.keys) },
}

impl<A: Allocator + Copy> PathSet<A> for OrderedEdges<A> {
    ghost members = { λ s. triples_of s.edges.keys };

    fn empty(alloc: A) -> Self {
        OrderedEdges {
            edges: BTreeSet::new(alloc),
        }
    }

    fn insert(&mut self, entry: Word, point: Point, values: Word) -> Result<bool, AllocError> {
        let added = self.edges.insert(Edge {
            entry,
            point,
            values,
        })?;
        Ok(added)
    }

    fn contains(&self, entry: Word, point: Point, values: Word) -> bool {
        self.edges.contains(&Edge {
            entry,
            point,
            values,
        })
    }

    fn len(&self) -> u64 {
        self.edges.len() as u64
    }

    ghost none_twice = { λ s. s.once };
}
