//! The choices at a point, expanded: where they lead.

ghost use Rattle.std.specs.Prelude.{◌≡◌, ◌≤◌, ◌↔◌, None, IfSome, IfNone, IsTrue};
ghost use Rattle.flow_graph.specs.Flows.{last_of, next_of};
ghost use Rattle.summaries.specs.Grows.{IsExpansionKey};

use crate::edge::PathEdge;
use crate::frontier::Frontier;
use crate::kept_edge::KeptEdge;
use crate::table_fault::TableFault;
use flow_graph::Flow;
use language::{Point, Word};
use path_sets::PathSet;
use std::alloc::Allocator;

/// A flow with at least this number of choices is expanded once for all valuations that it leads alike. With fewer,
/// remembering an edge takes more than expanding it again.
const MANY: Word = 8;

/// Whether a flow has so many choices that it is expanded once for all valuations that it leads alike.
#[inline(always)]
pub(crate) fn has_many_choices<G: Allocator>(flow: &Flow<G>) -> bool
    ensures { IsTrue result ↔ (7 ≤ last_of flow.now) }
{
    flow.last() >= MANY - 1
}

/// What an edge is remembered by when its choices, of which there are many, are expanded; nothing if choice 0 does not
/// lead on.
#[inline(always)]
pub(crate) fn expansion_key<G: Allocator>(flow: &Flow<G>, edge: PathEdge) -> Option<KeptEdge>
    requires { 2 ≤ last_of flow.now }
    ensures some { IfSome result (λ led. IsExpansionKey flow.now edge led) }
    ensures none { IfNone result (next_of flow.now edge.values 0 ≡ None) }
{
    let (_, values) = flow.next(edge.values, 0)?;
    let first = PathEdge {
        entry: edge.entry,
        point: edge.point,
        values,
    };
    Some(KeptEdge::new(first))
}

impl<'e, 'p, A: Allocator, S: PathSet<A>> Frontier<'e, 'p, A, S> {
    ghost use Rattle.summaries.specs.Grows.{IsAt, IsOther};
    ghost use Rattle.summaries.specs.Frontiers.{Extends, IsWithin};

    /// Reaches where the run continues from an edge, if it does.
    #[inline(always)]
    pub(crate) fn reach_next(
        &mut self,
        from: PathEdge,
        next: Option<(Point, Word)>,
    ) -> Result<(), TableFault>
        requires { IsWithin S.members self.old }
        ensures { Extends S.members (IsAt from next) result self.old self.new }
    {
        let Some((point, values)) = next else {
            return Ok(());
        };
        let edge = PathEdge {
            entry: from.entry,
            point,
            values,
        };
        self.reach(edge)
    }

    /// Reaches what each choice of a flow after the first leads to from an edge. After an error some of the edges have
    /// been added.
    #[inline(always)]
    pub(crate) fn reach_others<G: Allocator>(
        &mut self,
        flow: &Flow<G>,
        from: PathEdge,
    ) -> Result<(), TableFault>
        requires others { 1 ≤ last_of flow.now }
        requires within { IsWithin S.members self.old }
        ensures { Extends S.members (IsOther flow.now from) result self.old self.new }
    {
        let mut choice = 1;
        'choices: loop {
            let (next, more) = flow.choose(from.values, choice);
            self.reach_next(from, next)?;
            if !more {
                return Ok(());
            }
            choice += 1;
        }
    }
}
