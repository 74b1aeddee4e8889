//! Steps of a top frame, by numbers.

ghost use Rattle.std.specs.Prelude.{◌≡◌, ◌↔◌, ℕ, None, Some, IfSome, IsNone, slice_get};
ghost use Rattle.flow_graph.specs.Drawn.{graphs_of, flows_of};
ghost use Rattle.turns.specs.Numbered.{valuation_at, globals_in, places_in, placed, CallsFrom};
ghost use Rattle.turns.specs.Numbered.{ReturnsTo};
ghost use Rattle.turns.specs.declared.numbered_frame.NumberedFrame.{NumberedFrame as AFrame};

use flow_graph::{Flow, Graph, Graphs};
use language::{EXIT, Point, Word};
use std::alloc::Allocator;
use turns::NumberedFrame;

/// The valuation of a frame with these globals.
#[inline(always)]
pub(crate) fn valuation(globals: Word, frame: NumberedFrame) -> Word
    ensures { result ≡ valuation_at globals frame }
{
    globals.wrapping_add(frame.places)
}

/// The graph of a procedure, if there is one.
#[inline(always)]
pub(crate) fn graph_of<G: Allocator>(graphs: &Graphs<G>, procedure: u8) -> Option<&Graph<G>>
    ensures some { IfSome result
        (λ graph. slice_get (graphs_of graphs.now) procedure ≡ Some graph.now) }
    ensures none { IsNone result → slice_get (graphs_of graphs.now) procedure ≡ None }
{
    if (procedure as usize) < graphs.len() {
        Some(graphs.graph(procedure))
    } else {
        None
    }
}

/// The flow at a point of a graph, if there is one.
#[inline(always)]
pub(crate) fn flow_of<G: Allocator>(graph: &Graph<G>, point: Point) -> Option<&Flow<G>>
    ensures some { IfSome result (λ flow. slice_get (flows_of graph.now) point ≡ Some flow.now) }
    ensures none { IsNone result → slice_get (flows_of graph.now) point ≡ None }
{
    if point < graph.points() {
        Some(graph.flow(point))
    } else {
        None
    }
}

/// A frame of a procedure at a point, and its globals, by its valuation.
#[inline(always)]
pub(crate) fn parts<G: Allocator>(
    graph: &Graph<G>,
    procedure: u8,
    point: Point,
    values: Word,
) -> (Word, NumberedFrame)
    ensures globals { result.0 ≡ globals_in graph.now values }
    ensures frame { result.1 ≡ placed procedure point
        (places_in graph.now values) }
{
    let globals = graph.left(values).globals;
    let frame = NumberedFrame {
        procedure,
        point,
        places: values - globals,
    };
    (globals, frame)
}

/// The first frame of the call that a top frame makes with these globals, if it calls.
pub(crate) fn called<G: Allocator>(
    graphs: &Graphs<G>,
    globals: Word,
    frame: NumberedFrame,
) -> Option<NumberedFrame>
    ensures { (e w : AFrame) → CallsFrom (graphs_of graphs.now) globals frame e w
        ↔ ((result ≡ Some e) × (w ≡ frame)) }
{
    let graph = graph_of(graphs, frame.procedure)?;
    let Flow::Call(call) = flow_of(graph, frame.point)? else {
        return None;
    };
    let callee = call.callee();
    let called = graph_of(graphs, callee)?;
    let entered = call.entry(valuation(globals, frame));
    let (_, first) = parts(called, callee, called.start(), entered);
    Some(first)
}

/// Where the frame below continues, and with which globals, if a top frame with these globals is at its exit.
pub(crate) fn resumed<G: Allocator>(
    graphs: &Graphs<G>,
    globals: Word,
    frame: NumberedFrame,
    below: NumberedFrame,
) -> Option<(Word, NumberedFrame)>
    ensures { (h : ℕ) (k : AFrame) → ReturnsTo (graphs_of graphs.now) globals frame below h k
        ↔ (result ≡ Some (h, k)) }
{
    if frame.point != EXIT {
        return None;
    }
    let own = graph_of(graphs, frame.procedure)?;
    let graph = graph_of(graphs, below.procedure)?;
    let Flow::Call(call) = flow_of(graph, below.point)? else {
        return None;
    };
    let left = own.left(valuation(globals, frame));
    let values = call.resumed(below.places, left);
    Some(parts(graph, below.procedure, call.back(), values))
}
