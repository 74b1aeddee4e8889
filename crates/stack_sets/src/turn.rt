//! Turns over sets of stacks.

ghost use Rattle.std.specs.Prelude.{◌<◌, ◌≤◌, IfOk, length};
ghost use Rattle.stack_sets.specs.Comes.{ComesTo, Takes};
ghost use Rattle.stack_sets.specs.Nodes.{IsPrefix, nodes_in};
ghost use Rattle.stack_sets.specs.Turns.{AreWhole, machine_by};

use crate::no_turn::NoTurn;
use crate::stack_sets::StackSets;
use flow_graph::{Asserts, Graphs};
use language::Word;
use std::alloc::Allocator;

/// Globals with which a turn can end, and the node of the stacks with which it can end then.
#[derive(Clone, Copy, PartialEq, Eq, Hash, Debug)]
pub struct Ending {
    pub globals: Word,
    pub node: usize,
}

/// What a turn comes to.
#[derive(Drop)]
pub enum Turn<A: Allocator> {
    /// An assert fails in the turn of some stack of its node.
    Fails,
    /// No assert fails, and the turn can end with these globals and stacks alone.
    Ends(Vec<Ending, A>),
}

/// A way to make a thread's turn.
pub trait TakesTurns<A: Allocator + Copy> {
    /// Makes the turn of a thread from these globals and any stack of this node. Stacks with which it can end are put
    /// into the sets. What it finds is taken from the work that is left, at least one for each ending; if there is less
    /// left than that, the error is `Limit`.
    fn take_turn<G: Allocator>(
        alloc: A,
        graphs: &Graphs<G>,
        asserts: &Asserts<G>,
        sets: &mut StackSets<A>,
        left: &mut u64,
        globals: Word,
        node: usize,
    ) -> Result<Turn<A>, NoTurn>
        requires whole { AreWhole (nodes_in sets.old) }
        requires within { node < length (nodes_in sets.old) }
        ensures keeps { IsPrefix (nodes_in sets.old) (nodes_in sets.new) }
        ensures whole { IfOk result (λ _. AreWhole (nodes_in sets.new)) }
        ensures comes { IfOk result
            (ComesTo (machine_by graphs.now asserts.now) (nodes_in sets.old)
            (nodes_in sets.new) globals node) }
        ensures work { left.new ≤ left.old }
        ensures taken { IfOk result (Takes left.old left.new) };
}
