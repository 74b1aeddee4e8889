//! Turns by saturation.

ghost use Rattle.std.specs.Prelude.{◌<◌, ◌≤◌, IfOk, length};
ghost use Rattle.stack_sets.specs.Comes.{ComesTo};
ghost use Rattle.stack_sets.specs.Nodes.{IsPrefix, nodes_in};
ghost use Rattle.stack_sets.specs.Turns.{AreWhole, machine_by};

use crate::keeping::keep_all;
use crate::listing::list_endings;
use crate::named::name_all;
use crate::pruning::prune_all;
use flow_graph::{Asserts, Graphs};
use language::Word;
use saturation::find;
use stack_sets::{NoTurn, StackSets, TakesTurns, Turn};
use std::alloc::Allocator;

/// Makes a turn by finding all that it comes to, from every stack of its node at once.
pub struct BySaturation;

impl<A: Allocator + Copy> TakesTurns<A> for BySaturation {
    fn take_turn<G: Allocator>(
        alloc: A,
        graphs: &Graphs<G>,
        asserts: &Asserts<G>,
        sets: &mut StackSets<A>,
        left: &mut u64,
        globals: Word,
        node: usize,
    ) -> Result<Turn<A>, NoTurn> {
        let Some(items) = find(alloc, graphs, asserts, sets, left, globals, node)? else {
            return Ok(Turn::Fails);
        };
        let base = sets.len();
        let named = name_all(alloc, base, items.as_slice())?;
        let nodes = prune_all(alloc, sets, named.nodes.as_slice())?;
        let names = keep_all(alloc, base, nodes.as_slice(), named.parts.as_slice(), sets)?;
        let endings = list_endings(alloc, names.as_slice(), named.parts.as_slice())?;
        Ok(Turn::Ends(endings))
    }
}
