//! Items are worked on.

ghost use Rattle.std.specs.Prelude.{◌≡◌, ◌≤◌, ◌+◌, ◌∷◌, false, true, Ok, OnOk, length};
ghost use Rattle.turns.specs.Machines.{Machine};
ghost use Rattle.stack_sets.specs.Nodes.{by_number, nodes_in};
ghost use Rattle.saturation.specs.Items.{Extends};
ghost use Rattle.saturation.specs.Calls.{callers_of};
ghost use Rattle.saturation.specs.Leads.{HaveAll, IsReturn, OfSome};
ghost use Rattle.stack_sets.specs.Turns.{machine_by};
ghost use Rattle.saturation.specs.Work.{finished_in, Follows, IsFailing, IsOut, Leaves, ListsAlso};
ghost use Rattle.saturation.specs.declared.item.Below.TheVariants as below;
ghost use Rattle.saturation.specs.declared.item.Item.TheVariants as item;

use crate::calls::Calls;
use crate::following::{come_out, follow_call, follow_moves, return_of, return_to};
use crate::found::{Items, reach};
use crate::item::{Below, Caller, Entry, Item, Top};
use crate::paired::{Finished, Resting};
use crate::steps::valuation;
use flow_graph::{Asserts, Graphs};
use language::EXIT;
use stack_sets::{NoTurn, StackSets};
use std::alloc::Allocator;

/// Works on a caller: adds where the finished frames of its call lead.
fn work_on_caller<G: Allocator, A: Allocator + Copy>(
    graphs: &Graphs<G>,
    asserts: &Asserts<G>,
    sets: &StackSets<A>,
    items: &mut Items<A>,
    calls: &mut Calls<A>,
    left: &mut u64,
    caller: Caller,
) -> Result<(), NoTurn>
    ensures all { OnOk result (HaveAll
        (Follows (machine_by graphs.now asserts.now) (by_number (nodes_in sets.now)) calls.old
        (item.Waits caller))
        items.new.keys) }
    ensures only { Extends
        (Follows (machine_by graphs.now asserts.now) (by_number (nodes_in sets.now)) calls.old
        (item.Waits caller))
        items.old.keys items.new.keys }
    ensures listed { OnOk result (ListsAlso (item.Waits caller) calls.old calls.new) }
    ensures work { left.new + length items.new.keys ≤ left.old + length items.old.keys }
{
    let resting = Resting {
        frame: caller.frame,
        below: caller.below,
    };
    calls.callers.add(caller.entry, resting)?;
    return_of(
        graphs,
        items,
        left,
        calls.finished.of(caller.entry),
        resting,
    )
}

/// Works on a finished frame over a call: adds where its return to the callers of the call leads.
fn leave_call<G: Allocator, A: Allocator + Copy>(
    graphs: &Graphs<G>,
    asserts: &Asserts<G>,
    items: &mut Items<A>,
    calls: &mut Calls<A>,
    left: &mut u64,
    top: Top,
    entry: Entry,
) -> Result<(), NoTurn>
    requires over { top.below ≡ below.Call entry }
    requires exit { top.frame.point ≡ 0 }
    ensures all { OnOk result (HaveAll
        (OfSome (IsReturn (machine_by graphs.now asserts.now) (finished_in top))
        (callers_of calls.old entry))
        items.new.keys) }
    ensures only { Extends
        (OfSome (IsReturn (machine_by graphs.now asserts.now) (finished_in top))
        (callers_of calls.old entry))
        items.old.keys items.new.keys }
    ensures listed { OnOk result (ListsAlso (item.Head top) calls.old calls.new) }
    ensures work { left.new + length items.new.keys ≤ left.old + length items.old.keys }
{
    let finished = Finished {
        globals: top.globals,
        frame: top.frame,
    };
    calls.finished.add(entry, finished)?;
    return_to(graphs, items, left, finished, calls.callers.of(entry))
}

/// Works on a finished frame over a node from before: adds where its return to the node's heads leads, and the empty
/// stack if it is in the node.
fn leave_node<G: Allocator, A: Allocator + Copy>(
    graphs: &Graphs<G>,
    asserts: &Asserts<G>,
    sets: &StackSets<A>,
    items: &mut Items<A>,
    left: &mut u64,
    top: Top,
    number: usize,
) -> Result<(), NoTurn>
    requires over { top.below ≡ below.Old number }
    requires exit { top.frame.point ≡ 0 }
    ensures all { OnOk result (HaveAll
        (IsOut (machine_by graphs.now asserts.now) (by_number (nodes_in sets.now)) top number)
        items.new.keys) }
    ensures only { Extends
        (IsOut (machine_by graphs.now asserts.now) (by_number (nodes_in sets.now)) top number)
        items.old.keys items.new.keys }
    ensures work { left.new + length items.new.keys ≤ left.old + length items.old.keys }
{
    if number >= sets.len() {
        return Ok(());
    }
    let node = sets.node(number);
    let finished = Finished {
        globals: top.globals,
        frame: top.frame,
    };
    come_out(graphs, items, left, finished, node.heads.as_slice())?;
    if node.bare {
        reach(items, left, Item::Gone(top.globals))?;
    }
    Ok(())
}

/// Works on a finished frame: adds where it leads when it leaves.
fn leave<G: Allocator, A: Allocator + Copy>(
    graphs: &Graphs<G>,
    asserts: &Asserts<G>,
    sets: &StackSets<A>,
    items: &mut Items<A>,
    calls: &mut Calls<A>,
    left: &mut u64,
    top: Top,
) -> Result<(), NoTurn>
    requires { top.frame.point ≡ 0 }
    ensures all { OnOk result (HaveAll
        (Leaves (machine_by graphs.now asserts.now) (by_number (nodes_in sets.now)) calls.old top)
        items.new.keys) }
    ensures only { Extends
        (Leaves (machine_by graphs.now asserts.now) (by_number (nodes_in sets.now)) calls.old top)
        items.old.keys items.new.keys }
    ensures listed { OnOk result (ListsAlso (item.Head top) calls.old calls.new) }
    ensures work { left.new + length items.new.keys ≤ left.old + length items.old.keys }
{
    match top.below {
        Below::Old(number) => leave_node(graphs, asserts, sets, items, left, top, number),
        Below::Call(entry) => leave_call(graphs, asserts, items, calls, left, top, entry),
    }
}

/// Works on a top frame. Returns whether it fails; else what follows from it is added.
fn work_on_top<G: Allocator, A: Allocator + Copy>(
    graphs: &Graphs<G>,
    asserts: &Asserts<G>,
    sets: &StackSets<A>,
    items: &mut Items<A>,
    calls: &mut Calls<A>,
    left: &mut u64,
    top: Top,
) -> Result<bool, NoTurn>
    ensures fails { result ≡ Ok true
        → IsFailing (machine_by graphs.now asserts.now) (item.Head top) }
    ensures passes { result ≡ Ok false
        → IsFailing (machine_by graphs.now asserts.now) (item.Head top) → ⊥ }
    ensures all { result ≡ Ok false → HaveAll
        (Follows (machine_by graphs.now asserts.now) (by_number (nodes_in sets.now)) calls.old
        (item.Head top))
        items.new.keys }
    ensures only { Extends
        (Follows (machine_by graphs.now asserts.now) (by_number (nodes_in sets.now)) calls.old
        (item.Head top))
        items.old.keys items.new.keys }
    ensures listed { result ≡ Ok false → ListsAlso (item.Head top) calls.old calls.new }
    ensures work { left.new + length items.new.keys ≤ left.old + length items.old.keys }
{
    if asserts.fails(
        top.frame.procedure,
        top.frame.point,
        valuation(top.globals, top.frame),
    ) {
        return Ok(true);
    }
    follow_moves(graphs, items, left, top)?;
    follow_call(graphs, items, left, top)?;
    if top.frame.point == EXIT {
        leave(graphs, asserts, sets, items, calls, left, top)?;
    }
    Ok(false)
}

/// Works on an item. Returns whether it fails; else what follows from it is added.
pub(crate) fn work_on<G: Allocator, A: Allocator + Copy>(
    graphs: &Graphs<G>,
    asserts: &Asserts<G>,
    sets: &StackSets<A>,
    items: &mut Items<A>,
    calls: &mut Calls<A>,
    left: &mut u64,
    item: Item,
) -> Result<bool, NoTurn>
    ensures fails { result ≡ Ok true → IsFailing (machine_by graphs.now asserts.now) item }
    ensures passes { result ≡ Ok false → IsFailing (machine_by graphs.now asserts.now) item → ⊥ }
    ensures all { result ≡ Ok false → HaveAll
        (Follows (machine_by graphs.now asserts.now)
        (by_number (nodes_in sets.now)) calls.old item) items.new.keys }
    ensures only { Extends
        (Follows (machine_by graphs.now asserts.now) (by_number (nodes_in sets.now)) calls.old item)
        items.old.keys items.new.keys }
    ensures listed { result ≡ Ok false → ListsAlso item calls.old calls.new }
    ensures work { left.new + length items.new.keys ≤ left.old + length items.old.keys }
{
    match item {
        Item::Head(top) => work_on_top(graphs, asserts, sets, items, calls, left, top),
        Item::Waits(caller) => {
            work_on_caller(graphs, asserts, sets, items, calls, left, caller)?;
            Ok(false)
        }
        Item::Gone(_) => Ok(false),
    }
}
