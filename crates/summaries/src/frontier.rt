//! Path edges that are found, and those of them to work on.

ghost use Rattle.std.specs.Prelude.{◌≡◌};

use crate::edge::PathEdge;
use crate::long_list::append;
use crate::table_fault::TableFault;
use language::{Point, Word};
use path_sets::{EdgeLimit, PathSet};
use std::alloc::Allocator;

/// The path edges of a table, those of them that are pending, and how many there may be. Each `&mut` has a lifetime of
/// its own, without which no caller that also borrows the calls is proved.
#[derive(Drop)]
pub(crate) struct Frontier<'e, 'p, A: Allocator, S: PathSet<A>> {
    pub(crate) edges: &'e mut S,
    pub(crate) pending: &'p mut Vec<PathEdge, A>,
    pub(crate) limit: EdgeLimit,
}

impl<'e, 'p, A: Allocator, S: PathSet<A>> Frontier<'e, 'p, A, S> {
    ghost use Rattle.summaries.specs.Grows.{triple_of, IsAt};
    ghost use Rattle.summaries.specs.Frontiers.{Extends, Finds, IsWithin};

    /// Adds one path edge. If it is new, it is returned, and is to be worked on or made pending; if it is new and the limit
    /// is reached, the answer is `EdgeLimit`.
    #[inline(always)]
    fn find(&mut self, edge: PathEdge) -> Result<Option<PathEdge>, TableFault>
        requires { IsWithin S.members self.old }
        ensures { Finds S.members (λ t. t ≡ triple_of edge) result self.old self.new }
    {
        if self.edges.len() >= self.limit.edges() as u64 {
            return if self.edges.contains(edge.entry, edge.point, edge.values) {
                Ok(None)
            } else {
                Err(TableFault::EdgeLimit)
            };
        }
        if self.edges.insert(edge.entry, edge.point, edge.values)? {
            Ok(Some(edge))
        } else {
            Ok(None)
        }
    }

    /// Adds one path edge, if it is new, and makes it pending. If it is new and the limit is reached, the answer
    /// is `EdgeLimit`. After an error the edges may have it, and it need not be pending.
    #[inline(always)]
    pub(crate) fn reach(&mut self, edge: PathEdge) -> Result<(), TableFault>
        requires { IsWithin S.members self.old }
        ensures { Extends S.members (λ t. t ≡ triple_of edge) result self.old self.new }
    {
        if let Some(found) = self.find(edge)? {
            append(self.pending, found)?;
        }
        Ok(())
    }

    /// Adds where the run continues from an edge, if it does. If that is new, it is returned, as the edge to work on next.
    #[inline(always)]
    pub(crate) fn find_next(
        &mut self,
        from: PathEdge,
        next: Option<(Point, Word)>,
    ) -> Result<Option<PathEdge>, TableFault>
        requires { IsWithin S.members self.old }
        ensures { Finds S.members (IsAt from next) result self.old self.new }
    {
        let Some((point, values)) = next else {
            return Ok(None);
        };
        self.find(PathEdge {
            entry: from.entry,
            point,
            values,
        })
    }
}
