//! The work of a table: on an edge, and on a message that comes.

ghost use Rattle.std.specs.Prelude.{◌≡◌, ◌≤◌, ◌<◌, ◌↔◌, length, IsTrue, OnOk, slice_get, Some};
ghost use Rattle.language.specs.Lists.{Member};
ghost use Rattle.path_sets.specs.Triples.{triple};
ghost use Rattle.flow_graph.specs.Drawn.{flows_of};
ghost use Rattle.flow_graph.specs.Flows.{last_of};
ghost use Rattle.flow_graph.specs.Returns.{left_by};
ghost use Rattle.flow_graph.specs.declared.flow.Flow.TheVariants as flow;
ghost use Rattle.summaries.specs.declared.due.Due.TheVariants.{Entry};
ghost use Rattle.summaries.specs.Mails.{summary_due};
ghost use Rattle.summaries.specs.Found.{path_edge, HasExit};
ghost use Rattle.summaries.specs.Grows.{triple_of, IsAt, IsFoundBy, IsNext, IsNoCall, IsOther};
ghost use Rattle.summaries.specs.Tables.{answers_of, graph_of, limit_of, HasItsExit, HasAsked};
ghost use Rattle.summaries.specs.Tables.{Holds};
ghost use Rattle.summaries.specs.Tables.{AddsEdges, FindsEdge, HasAllNext, Worked, StaysAs, IsLess};
ghost use Rattle.summaries.specs.Tables.{IsLessBeside, IsNoMore, IsThere, TookAlso};
ghost use Rattle.summaries.specs.Tables.{TookOnly, TookSame};

use crate::due::Caller;
use crate::edge::{CallKey, PathEdge};
use crate::expanding::{expansion_key, has_many_choices};
use crate::frontier::Frontier;
use crate::kept_call::KeptCall;
use crate::kept_edge::KeptEdge;
use crate::kept_exit::KeptExit;
use crate::sending::{send_summaries, send_summary_to_all};
use crate::table::Table;
use crate::table_fault::TableFault;
use flow_graph::{Exit, Flow};
use language::{EXIT, Point, Word};
use path_sets::PathSet;
use std::alloc::{AllocError, Allocator};

impl<'g, G: Allocator, A: Allocator + Copy, S: PathSet<A>> Table<'g, G, A, S> {
    /// Keeps what an edge at the exit leaves, and tells it to the callers.
    #[inline(never)]
    fn record_exit(&mut self, entry: Word, values: Word) -> Result<(), AllocError>
        requires edge { Member (triple entry EXIT values) (S.members self.old.edges) }
        requires holds { Holds S.members (λ t. t ≡ triple entry EXIT values) self.old }
        ensures ok { OnOk result (Holds S.members (λ t. t ≡ triple entry EXIT values) self.new) }
        ensures left { OnOk result (HasExit self.new.found entry (left_by (graph_of self.new) values)) }
        ensures answers { OnOk result (answers_of self.new ≡ answers_of self.old) }
        ensures taken { TookSame self.old.found self.new.found }
        ensures edges { self.new.edges ≡ self.old.edges }
        ensures pending { self.new.found.pending ≡ self.old.found.pending }
        ensures stays { StaysAs self.old self.new }
        ensures fault { self.new.fault ≡ self.old.fault }
    {
        let left = self.graph.left(values);
        let last = &mut self.found.last_exit;
        if let Some(at) = self.found.exits.insert_near(entry, left, last)? {
            let last = &mut self.found.last_entry;
            let callers = self.found.entries.of_near(entry, last);
            send_summary_to_all(&mut self.found.outbox, at, callers)?;
        }
        Ok(())
    }

    /// Records what an edge leaves, if it is at the exit.
    #[inline(always)]
    fn record_if_exit(&mut self, edge: PathEdge) -> Result<(), AllocError>
        requires edge { Member (triple_of edge) (S.members self.old.edges) }
        requires holds { Holds S.members (λ t. t ≡ triple_of edge) self.old }
        ensures ok { OnOk result (Holds S.members (λ t. t ≡ triple_of edge) self.new) }
        ensures left { OnOk result (HasItsExit self.new edge) }
        ensures answers { OnOk result (answers_of self.new ≡ answers_of self.old) }
        ensures taken { TookSame self.old.found self.new.found }
        ensures edges { self.new.edges ≡ self.old.edges }
        ensures pending { self.new.found.pending ≡ self.old.found.pending }
        ensures stays { StaysAs self.old self.new }
        ensures fault { self.new.fault ≡ self.old.fault }
    {
        if edge.point != EXIT {
            return Ok(());
        }
        self.record_exit(edge.entry, edge.values)
    }

    /// Requests the procedure that is called from an edge, and continues after the call with what is known of
    /// it.
    #[inline(never)]
    fn record_call(
        &mut self,
        entry: Word,
        point: Point,
        values: Word,
        call: &flow_graph::Call<G>,
    ) -> Result<(), TableFault>
        requires call { slice_get (flows_of (graph_of self.old)) point ≡ Some (flow.Call call.now) }
        requires edge { Member (triple entry point values) (S.members self.old.edges) }
        requires holds { Holds S.members (λ t. t ≡ triple entry point values) self.old }
        requires within { length (S.members self.old.edges) ≤ limit_of self.old }
        ensures worked { Worked S.members (λ t. t ≡ triple entry point values) result self.old self.new }
        ensures asked { OnOk result (HasAsked self.new (path_edge entry point values) call.now) }
        ensures taken { TookSame self.old.found self.new.found }
        ensures exits { self.new.found.exits ≡ self.old.found.exits }
        ensures less { OnOk result (IsLess S.members self.old self.new) }
    {
        let edge = PathEdge {
            entry,
            point,
            values,
        };
        let key = KeptCall::new(CallKey {
            callee: call.callee(),
            entered: call.entry(edge.values),
        });
        let added = self.found.calls.add_site(key, KeptEdge::new(edge))?;
        self.found.outbox.send_entry(added.had, added.at)?;
        let mut frontier = Frontier {
            edges: &mut self.edges,
            pending: &mut self.found.pending,
            limit: self.limit,
        };
        frontier.resume_site(self.graph, edge, &self.found.calls, added.chain)
    }

    /// Works on an edge that is not pending: adds the edges that it leads to, and gives the messages that it makes due. The
    /// edge that the first choice leads to is returned, if it is new; the others that are new become pending.
    // What few edges need is not inlined. It takes the parts of an edge and returns none: a struct that is passed to such a
    // function or returned by it has a place on the stack that is filled for every edge.
    #[inline(always)]
    fn work(&mut self, edge: PathEdge) -> Result<Option<PathEdge>, TableFault>
        requires edge { Member (triple_of edge) (S.members self.old.edges) }
        requires holds { Holds S.members (λ t. t ≡ triple_of edge) self.old }
        requires within { length (S.members self.old.edges) ≤ limit_of self.old }
        ensures worked { Worked S.members (IsFoundBy result) result self.old self.new }
        ensures there { IsThere S.members result self.new }
        ensures taken { TookSame self.old.found self.new.found }
        ensures less { OnOk result (IsLessBeside S.members result self.old self.new) }
    {
        self.record_if_exit(edge)?;
        let PathEdge {
            entry,
            point,
            values,
        } = edge;
        if point >= self.graph.points() {
            return Ok(None);
        }
        match self.graph.flow(point) {
            Flow::Call(call) => {
                self.record_call(entry, point, values, call)?;
                Ok(None)
            }
            flow if has_many_choices(flow) => {
                self.expand_once(flow, entry, point, values)?;
                Ok(None)
            }
            flow => self.expand(flow, edge),
        }
    }

    /// Works on an edge that is not pending, and then on the edge that it leads to first, as long as that is new.
    pub(crate) fn follow(&mut self, edge: PathEdge) -> Result<(), TableFault>
        requires edge { Member (triple_of edge) (S.members self.old.edges) }
        requires holds { Holds S.members (λ t. t ≡ triple_of edge) self.old }
        requires within { length (S.members self.old.edges) ≤ limit_of self.old }
        ensures worked { Worked S.members (λ t. ⊥) result self.old self.new }
        ensures taken { TookSame self.old.found self.new.found }
        ensures less { OnOk result (IsNoMore S.members self.old self.new) }
    {
        let mut edge = edge;
        'edges: loop {
            match self.work(edge)? {
                Some(next) => edge = next,
                None => return Ok(()),
            }
        }
    }

    /// Adds the edges that each choice leads to from an edge. That of the first choice is returned, if it is new; the
    /// others that are new become pending.
    // The first choice is followed apart: that its number is known makes it short, and most edges have no other.
    #[inline(always)]
    fn expand(&mut self, flow: &Flow<G>, edge: PathEdge) -> Result<Option<PathEdge>, TableFault>
        requires flow { slice_get (flows_of (graph_of self.old)) edge.point ≡ Some flow.now }
        requires no_call { IsNoCall flow.now }
        requires left { HasItsExit self.old edge }
        requires edge { Member (triple_of edge) (S.members self.old.edges) }
        requires holds { Holds S.members (λ t. t ≡ triple_of edge) self.old }
        requires within { length (S.members self.old.edges) ≤ limit_of self.old }
        ensures worked { Worked S.members (IsFoundBy result) result self.old self.new }
        ensures there { IsThere S.members result self.new }
        ensures all { OnOk result (HasAllNext S.members flow.now edge self.new) }
        ensures taken { TookSame self.old.found self.new.found }
        ensures less { OnOk result (IsLessBeside S.members result self.old self.new) }
    {
        let (next, more) = flow.choose(edge.values, 0);
        self.expand_others(flow, edge, more)?;
        self.find_next(edge, next)
    }

    /// Adds where the run continues from an edge, if it does. If that is new, it is returned.
    #[inline(always)]
    fn find_next(
        &mut self,
        edge: PathEdge,
        next: Option<(Point, Word)>,
    ) -> Result<Option<PathEdge>, TableFault>
        requires within { length (S.members self.old.edges) ≤ limit_of self.old }
        ensures { FindsEdge S.members (IsAt edge next) result self.old self.new }
    {
        let mut frontier = Frontier {
            edges: &mut self.edges,
            pending: &mut self.found.pending,
            limit: self.limit,
        };
        frontier.find_next(edge, next)
    }

    /// Adds the edges that each choice after the first leads to from an edge, if there are more choices.
    #[inline(always)]
    fn expand_others(
        &mut self,
        flow: &Flow<G>,
        edge: PathEdge,
        more: bool,
    ) -> Result<(), TableFault>
        requires others { IsTrue more ↔ (0 < last_of flow.now) }
        requires within { length (S.members self.old.edges) ≤ limit_of self.old }
        ensures { AddsEdges S.members (IsOther flow.now edge) result self.old self.new }
    {
        if !more {
            return Ok(());
        }
        let mut frontier = Frontier {
            edges: &mut self.edges,
            pending: &mut self.found.pending,
            limit: self.limit,
        };
        frontier.reach_others(flow, edge)
    }

    /// Adds where the run continues from an edge, if it does, and makes it pending, if it is new.
    fn reach_next(&mut self, edge: PathEdge, next: Option<(Point, Word)>) -> Result<(), TableFault>
        requires within { length (S.members self.old.edges) ≤ limit_of self.old }
        ensures { AddsEdges S.members (IsAt edge next) result self.old self.new }
    {
        let mut frontier = Frontier {
            edges: &mut self.edges,
            pending: &mut self.found.pending,
            limit: self.limit,
        };
        frontier.reach_next(edge, next)
    }

    /// Adds the edges that each choice leads to from an edge; those that are new become pending.
    fn reach_all(&mut self, flow: &Flow<G>, edge: PathEdge) -> Result<(), TableFault>
        requires within { length (S.members self.old.edges) ≤ limit_of self.old }
        ensures { AddsEdges S.members (IsNext flow.now edge) result self.old self.new }
    {
        let (next, more) = flow.choose(edge.values, 0);
        self.reach_next(edge, next)?;
        self.expand_others(flow, edge, more)
    }

    /// Adds the edges that each choice of many leads to from an edge, unless this was done for an edge that choice 0 leads
    /// to the same: then each choice does.
    #[inline(never)]
    fn expand_once(
        &mut self,
        flow: &Flow<G>,
        entry: Word,
        point: Point,
        values: Word,
    ) -> Result<(), TableFault>
        requires flow { slice_get (flows_of (graph_of self.old)) point ≡ Some flow.now }
        requires no_call { IsNoCall flow.now }
        requires many { 2 ≤ last_of flow.now }
        requires left { HasItsExit self.old (path_edge entry point values) }
        requires edge { Member (triple entry point values) (S.members self.old.edges) }
        requires holds { Holds S.members (λ t. t ≡ triple entry point values) self.old }
        requires within { length (S.members self.old.edges) ≤ limit_of self.old }
        ensures worked { Worked S.members (λ t. ⊥) result self.old self.new }
        ensures taken { TookSame self.old.found self.new.found }
        ensures less { OnOk result (IsLess S.members self.old self.new) }
    {
        let edge = PathEdge {
            entry,
            point,
            values,
        };
        let Some(led) = expansion_key(flow, edge) else {
            return self.reach_all(flow, edge);
        };
        if self.found.expanded.contains(&led) {
            return Ok(());
        }
        self.reach_all(flow, edge)?;
        self.found.expanded.insert(led)?;
        Ok(())
    }

    /// Lets a caller enter the procedure, unless it has: its start is reached, and the caller gets the summaries known.
    pub(crate) fn enter(&mut self, caller: Caller, a: Word) -> Result<(), TableFault>
        requires holds { Holds S.members (λ t. ⊥) self.old }
        requires within { length (S.members self.old.edges) ≤ limit_of self.old }
        ensures worked { Worked S.members (λ t. ⊥) result self.old self.new }
        ensures taken { OnOk result (TookAlso (Entry caller a) self.old.found self.new.found) }
        ensures only { TookOnly (Entry caller a) self.old.found self.new.found }
    {
        if self.found.entries.of(a).contains(&caller) {
            return Ok(());
        }
        self.found.entries.add(a, caller)?;
        let start = PathEdge {
            entry: a,
            point: self.graph.start(),
            values: a,
        };
        let mut frontier = Frontier {
            edges: &mut self.edges,
            pending: &mut self.found.pending,
            limit: self.limit,
        };
        frontier.reach(start)?;
        send_summaries(&mut self.found.outbox, &self.found.exits, a, caller)?;
        Ok(())
    }

    /// Resumes each call of this kind, for what it has left.
    pub(crate) fn resume(&mut self, call: CallKey, left: Exit) -> Result<(), TableFault>
        requires holds { Holds S.members (λ t. ⊥) self.old }
        requires within { length (S.members self.old.edges) ≤ limit_of self.old }
        ensures worked { Worked S.members (λ t. ⊥) result self.old self.new }
        ensures taken { OnOk result
            (TookAlso (summary_due call.callee call.entered left) self.old.found self.new.found) }
        ensures only { TookOnly
            (summary_due call.callee call.entered left) self.old.found self.new.found }
    {
        let key = KeptCall::new(call);
        let at = self.found.calls.add_summary(key, KeptExit::new(left))?;
        let mut frontier = Frontier {
            edges: &mut self.edges,
            pending: &mut self.found.pending,
            limit: self.limit,
        };
        frontier.resume_sites(self.graph, self.found.calls.sites_at(at), left)
    }
}
