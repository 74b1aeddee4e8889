//! Calls whose summaries are known.

use crate::calls::Calls;
use crate::edge::PathEdge;
use crate::frontier::Frontier;
use crate::kept_edge::KeptEdge;
use crate::table_fault::TableFault;
use flow_graph::{Exit, Flow, Graph};
use path_sets::PathSet;
use std::alloc::Allocator;

impl<'e, 'p, A: Allocator, S: PathSet<A>> Frontier<'e, 'p, A, S> {
    ghost use Rattle.summaries.specs.Chains.{chain_of};
    ghost use Rattle.summaries.specs.Grows.{OfSome, IsBehind};
    ghost use Rattle.summaries.specs.Frontiers.{Extends, IsWithin};

    /// Continues after the call of a site, for what it has left; nowhere if there is no such call. After an error
    /// the edge may have been added.
    // Inlined: a site and what it has left would be copied for the call.
    #[inline(always)]
    fn reach_after_call<G: Allocator>(
        &mut self,
        graph: &Graph<G>,
        site: PathEdge,
        left: Exit,
    ) -> Result<(), TableFault>
        requires { IsWithin S.members self.old }
        ensures { Extends S.members (IsBehind graph.now site left) result self.old self.new }
    {
        if site.point >= graph.points() {
            return Ok(());
        }
        let Flow::Call(call) = graph.flow(site.point) else {
            return Ok(());
        };
        let edge = PathEdge {
            entry: site.entry,
            point: call.back(),
            values: call.resumed(site.values, left),
        };
        self.reach(edge)
    }

    /// Continues after the call of a site for each thing on the chain of what it has left. After an error some of the
    /// edges have been added.
    pub(crate) fn resume_site<G: Allocator>(
        &mut self,
        graph: &Graph<G>,
        site: PathEdge,
        calls: &Calls<A>,
        chain: u32,
    ) -> Result<(), TableFault>
        requires { IsWithin S.members self.old }
        ensures { Extends S.members
            (OfSome (IsBehind graph.now site) (chain_of calls.now.left.links.items chain))
            result self.old self.new }
    {
        let mut chain = chain;
        'links: while let Some((left, before)) = calls.left.last(chain) {
            self.reach_after_call(graph, site, left)?;
            chain = before;
        }
        Ok(())
    }

    /// Continues after the call of each of these sites, for what it has left. After an error some of the edges have
    /// been added.
    pub(crate) fn resume_sites<G: Allocator>(
        &mut self,
        graph: &Graph<G>,
        sites: &[KeptEdge],
        left: Exit,
    ) -> Result<(), TableFault>
        requires { IsWithin S.members self.old }
        ensures { Extends S.members
            (OfSome (λ site. IsBehind graph.now site left) sites.now) result self.old self.new }
    {
        for site in sites {
            self.reach_after_call(graph, site.edge(), left)?;
        }
        Ok(())
    }
}
