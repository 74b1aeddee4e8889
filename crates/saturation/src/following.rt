//! What follows from what a turn has found.

ghost use Rattle.std.specs.Prelude.{◌≡◌, ◌≤◌, ◌+◌, ℕ, Bool, OnOk, length};
ghost use Rattle.flow_graph.specs.Drawn.{graphs_of};
ghost use Rattle.turns.specs.Numbered.{numbered_machine, Failures};
ghost use Rattle.saturation.specs.Items.{Extends};
ghost use Rattle.saturation.specs.Leads.{HaveAll, IsCall, IsMove, IsNext, IsReturn, OfSome};
ghost use Rattle.saturation.specs.Leads.{resting_in};

use crate::found::{Items, reach};
use crate::item::{Below, Caller, Entry, Item, Top};
use crate::paired::{Finished, Resting};
use crate::steps::{called, flow_of, graph_of, parts, resumed, valuation};
use flow_graph::{Graph, Graphs};
use language::{Point, Word};
use stack_sets::{Head, NoTurn};
use std::alloc::Allocator;

/// Adds where a step inside the call of a top frame leads, if there is one.
fn reach_next<G: Allocator, A: Allocator>(
    graph: &Graph<G>,
    items: &mut Items<A>,
    left: &mut u64,
    top: Top,
    next: Option<(Point, Word)>,
) -> Result<(), NoTurn>
    ensures all { OnOk result (HaveAll (IsNext graph.now top next) items.new.keys) }
    ensures only { Extends (IsNext graph.now top next) items.old.keys items.new.keys }
    ensures work { left.new + length items.new.keys ≤ left.old + length items.old.keys }
{
    let Some((point, values)) = next else {
        return Ok(());
    };
    let (globals, frame) = parts(graph, top.frame.procedure, point, values);
    let below = top.below;
    reach(
        items,
        left,
        Item::Head(Top {
            globals,
            frame,
            below,
        }),
    )
}

/// Adds where the moves of a top frame lead.
pub(crate) fn follow_moves<G: Allocator, A: Allocator>(
    graphs: &Graphs<G>,
    items: &mut Items<A>,
    left: &mut u64,
    top: Top,
) -> Result<(), NoTurn>
    ensures all { (fails : Failures)
        → OnOk result
        (HaveAll (IsMove (numbered_machine (graphs_of graphs.now) fails) top) items.new.keys) }
    ensures only { (fails : Failures)
        → Extends
        (IsMove (numbered_machine (graphs_of graphs.now) fails) top) items.old.keys items.new.keys }
    ensures work { left.new + length items.new.keys ≤ left.old + length items.old.keys }
{
    let Some(graph) = graph_of(graphs, top.frame.procedure) else {
        return Ok(());
    };
    let Some(flow) = flow_of(graph, top.frame.point) else {
        return Ok(());
    };
    let values = valuation(top.globals, top.frame);
    let mut choice = 0;
    'choices: loop {
        let (next, more) = flow.choose(values, choice);
        reach_next(graph, items, left, top, next)?;
        if !more {
            return Ok(());
        }
        choice += 1;
    }
}

/// Adds where a call of a top frame leads, if it calls.
pub(crate) fn follow_call<G: Allocator, A: Allocator>(
    graphs: &Graphs<G>,
    items: &mut Items<A>,
    left: &mut u64,
    top: Top,
) -> Result<(), NoTurn>
    ensures all { (fails : Failures)
        → OnOk result
        (HaveAll (IsCall (numbered_machine (graphs_of graphs.now) fails) top) items.new.keys) }
    ensures only { (fails : Failures)
        → Extends
        (IsCall (numbered_machine (graphs_of graphs.now) fails) top) items.old.keys items.new.keys }
    ensures work { left.new + length items.new.keys ≤ left.old + length items.old.keys }
{
    let Some(first) = called(graphs, top.globals, top.frame) else {
        return Ok(());
    };
    let entry = Entry {
        globals: top.globals,
        frame: first,
    };
    let head = Top {
        globals: top.globals,
        frame: first,
        below: Below::Call(entry),
    };
    reach(items, left, Item::Head(head))?;
    let caller = Caller {
        entry,
        frame: top.frame,
        below: top.below,
    };
    reach(items, left, Item::Waits(caller))
}

/// Adds where the return of a finished frame to a caller leads.
fn reach_resumed<G: Allocator, A: Allocator>(
    graphs: &Graphs<G>,
    items: &mut Items<A>,
    left: &mut u64,
    finished: Finished,
    caller: Resting,
) -> Result<(), NoTurn>
    ensures all { (fails : Failures)
        → OnOk result
        (HaveAll
        (IsReturn (numbered_machine (graphs_of graphs.now) fails) finished caller) items.new.keys) }
    ensures only { (fails : Failures)
        → Extends
        (IsReturn (numbered_machine (graphs_of graphs.now) fails) finished caller) items.old.keys
        items.new.keys }
    ensures work { left.new + length items.new.keys ≤ left.old + length items.old.keys }
{
    let Some((globals, frame)) = resumed(graphs, finished.globals, finished.frame, caller.frame)
    else {
        return Ok(());
    };
    let below = caller.below;
    reach(
        items,
        left,
        Item::Head(Top {
            globals,
            frame,
            below,
        }),
    )
}

/// A head of a node from before, as a caller.
fn resting(head: Head) -> Resting
    ensures { result ≡ resting_in head }
{
    Resting {
        frame: head.frame,
        below: Below::Old(head.below),
    }
}

/// Adds where a finished frame leads that returns to the heads of a node from before.
pub(crate) fn come_out<G: Allocator, A: Allocator>(
    graphs: &Graphs<G>,
    items: &mut Items<A>,
    left: &mut u64,
    finished: Finished,
    heads: &[Head],
) -> Result<(), NoTurn>
    ensures all { (fails : Failures) → OnOk result (HaveAll (OfSome
        (λ one. IsReturn (numbered_machine (graphs_of graphs.now) fails) finished (resting_in one))
        heads.now) items.new.keys) }
    ensures only { (fails : Failures) → Extends (OfSome
        (λ one. IsReturn (numbered_machine (graphs_of graphs.now) fails) finished (resting_in one))
        heads.now)
        items.old.keys items.new.keys }
    ensures work { left.new + length items.new.keys ≤ left.old + length items.old.keys }
{
    for head in heads {
        reach_resumed(graphs, items, left, finished, resting(*head))?;
    }
    Ok(())
}

/// Adds where a finished frame leads that returns to these callers.
pub(crate) fn return_to<G: Allocator, A: Allocator>(
    graphs: &Graphs<G>,
    items: &mut Items<A>,
    left: &mut u64,
    finished: Finished,
    callers: &[Resting],
) -> Result<(), NoTurn>
    ensures all { (fails : Failures) → OnOk result (HaveAll (OfSome
        (λ caller. IsReturn (numbered_machine (graphs_of graphs.now) fails) finished caller)
        callers.now) items.new.keys) }
    ensures only { (fails : Failures) → Extends (OfSome
        (λ caller. IsReturn (numbered_machine (graphs_of graphs.now) fails) finished caller)
        callers.now)
        items.old.keys items.new.keys }
    ensures work { left.new + length items.new.keys ≤ left.old + length items.old.keys }
{
    for caller in callers {
        reach_resumed(graphs, items, left, finished, *caller)?;
    }
    Ok(())
}

/// Adds where these finished frames lead that return to a caller.
pub(crate) fn return_of<G: Allocator, A: Allocator>(
    graphs: &Graphs<G>,
    items: &mut Items<A>,
    left: &mut u64,
    finished: &[Finished],
    caller: Resting,
) -> Result<(), NoTurn>
    ensures all { (fails : Failures) → OnOk result (HaveAll (OfSome
        (λ one. IsReturn (numbered_machine (graphs_of graphs.now) fails) one caller) finished.now)
        items.new.keys) }
    ensures only { (fails : Failures) → Extends (OfSome
        (λ one. IsReturn (numbered_machine (graphs_of graphs.now) fails) one caller) finished.now)
        items.old.keys items.new.keys }
    ensures work { left.new + length items.new.keys ≤ left.old + length items.old.keys }
{
    for one in finished {
        reach_resumed(graphs, items, left, *one, caller)?;
    }
    Ok(())
}
