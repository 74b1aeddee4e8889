//! Flow graphs.

ghost use Rattle.std.specs.Prelude.{◌≡◌, ◌≤◌, ◌<◌, length, slice_get, Some};
ghost use Rattle.flow_graph.specs.Bits.{has_any};

use crate::exit::Exit;
use crate::flow::Flow;
use crate::low_bits::LowBits;
use language::{Point, Word};
use std::alloc::Allocator;

/// Whether some bit of the mask is 1.
fn has_any(values: Word, mask: Word) -> bool
    ensures { result ≡ has_any values mask }
{
    values & mask != 0
}

/// The flow graph of a procedure: a point before each statement and the exit, and what leads on from each. A
/// valuation is a number of `WORD_BITS` bits: the globals from bit 0 in the order of their declaration, then the
/// formals, locals and temporaries, and last the result, if the procedure gives one.
#[derive(Drop)]
pub struct Graph<A: Allocator> {
    pub(crate) flows: Vec<Flow<A>, A>,
    pub(crate) start: Point,
    /// The bits of the globals.
    pub(crate) globals: LowBits,
    /// The bit of the result, alone; 0 if the procedure gives none.
    pub(crate) result: Word,
}

impl<A: Allocator> Graph<A> {
    ghost use Rattle.flow_graph.specs.Drawn.{flows_of, globals_of, opening_point};
    ghost use Rattle.flow_graph.specs.Returns.{left_by, AreGlobalsOf};

    /// The point of the first statement; the exit, if there is none.
    pub fn start(&self) -> Point
        ensures { result ≡ opening_point self.now }
    {
        self.start
    }

    /// How many points there are: as many as statements, and the exit.
    pub fn points(&self) -> usize
        ensures { result ≡ length (flows_of self.now) }
    {
        self.flows.len()
    }

    /// What leads on from a point.
    pub fn flow(&self, point: Point) -> &Flow<A>
        requires { point < length (flows_of self.now) }
        ensures { slice_get (flows_of self.now) point ≡ Some result.now }
    {
        &self.flows[point]
    }

    /// What a call leaves that ends with this valuation: its globals, and the result.
    pub fn left(&self, values: Word) -> Exit
        ensures number { result ≡ left_by self.now values }
        ensures globals { AreGlobalsOf (globals_of self.now) values result.globals }
    {
        Exit {
            globals: self.globals.of(values),
            result: has_any(values, self.result),
        }
    }
}

/// The flow graphs of the procedures of a sequential program, at most 32, by number.
#[derive(Drop)]
pub struct Graphs<A: Allocator> {
    pub(crate) graphs: Vec<Graph<A>, A>,
    pub(crate) bad: usize,
    pub ghost few: { length graphs.items ≤ 32 },
}

impl<A: Allocator> Graphs<A> {
    ghost use Rattle.flow_graph.specs.Drawn.{bad_of, graphs_of};

    /// How many procedures there are.
    pub fn len(&self) -> usize
        ensures { result ≡ length (graphs_of self.now) }
    {
        self.graphs.len()
    }

    /// The graph of a procedure.
    pub fn graph(&self, procedure: u8) -> &Graph<A>
        requires { procedure < length (graphs_of self.now) }
        ensures { slice_get (graphs_of self.now) procedure ≡ Some result.now }
    {
        &self.graphs[procedure as usize]
    }

    /// The bit of the global `bad__`, which a rewritten program has; as many as globals, if none has this name.
    pub fn bad(&self) -> usize
        ensures { result ≡ bad_of self.now }
    {
        self.bad
    }
}
