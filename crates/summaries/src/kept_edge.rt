//! Path edges as they are kept.

use crate::edge::PathEdge;
use language::Point;
use path_sets::Halves;
use std::marker::Model;

/// A path edge as a table keeps it, which takes 40 bytes instead of 48. Contracts see it as the path edge.
#[derive(Clone, Copy, PartialEq, Eq, Hash)]
pub(crate) struct KeptEdge {
    entry: Halves,
    point: Point,
    values: Halves,
}

impl Model for KeptEdge {
    ghost use Rattle.summaries.specs.declared.edge.PathEdge.{PathEdge};

    ghost Value = { PathEdge };

    ghost view = { λ k. record { entry = k.entry; point = k.point; values = k.values } };

    ghost inverse = { λ e. record { entry = e.entry; point = e.point; values = e.values } };
}

impl KeptEdge {
    ghost use Rattle.std.specs.Prelude.{◌≡◌};

    /// The path edge, to be kept.
    pub(crate) fn new(edge: PathEdge) -> Self
        ensures { result ≡ edge }
    {
        KeptEdge {
            entry: Halves::new(edge.entry),
            point: edge.point,
            values: Halves::new(edge.values),
        }
    }

    /// The path edge.
    pub(crate) fn edge(self) -> PathEdge
        ensures { result ≡ self }
    {
        PathEdge {
            entry: self.entry.word(),
            point: self.point,
            values: self.values.word(),
        }
    }
}
