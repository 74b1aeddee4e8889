//! A turn's sets of stacks.

ghost use Rattle.std.specs.Prelude.{◌≡◌, ◌+◌, IfOk};

use language::Word;
use saturation::Entry;
use stack_sets::NoTurn;

/// A set of stacks of a turn, which becomes a node.
#[derive(Clone, Copy, PartialEq, Eq, Hash)]
pub(crate) enum Part {
    /// The stacks below this call.
    Call(Entry),
    /// The stacks with which the turn can end with these globals.
    Ending(Word),
}

/// The number of the node at an index behind the nodes that were there before.
pub(crate) fn node_at(base: usize, index: usize) -> Result<usize, NoTurn>
    ensures { IfOk result (λ n. n ≡ base + index) }
{
    // Nodes that are in memory have numbers, so this is no error that comes.
    base.checked_add(index).ok_or(NoTurn::Memory)
}
