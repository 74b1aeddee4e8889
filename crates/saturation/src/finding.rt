//! All that a turn finds.

ghost use Rattle.std.specs.Prelude.{◌≡◌, ◌<◌, ◌≤◌, ◌+◌, ◌↔◌, IfOk, IfSome, IsSome, None, Ok};
ghost use Rattle.std.specs.Prelude.{length};
ghost use Rattle.stack_sets.specs.Nodes.{by_number, nodes_in};
ghost use Rattle.turns.specs.Turn.{Found as IsFound, SomeHeadFails};
ghost use Rattle.saturation.specs.Items.{Found, IsAmong};
ghost use Rattle.stack_sets.specs.Turns.{machine_by};

use crate::found::Items;
use crate::saturating::saturate;
use crate::starting::start;
use flow_graph::{Asserts, Graphs};
use indexmap::IndexSet;
use language::Word;
use stack_sets::{NoTurn, StackSets};
use std::alloc::Allocator;

/// All that a turn finds from globals and a node of stacks, each once; `None` if a head fails that it finds. Each takes
/// one from the work that is left; if none is left for one, the error is `Limit`.
pub fn find<G: Allocator, A: Allocator + Copy>(
    alloc: A,
    graphs: &Graphs<G>,
    asserts: &Asserts<G>,
    sets: &StackSets<A>,
    left: &mut u64,
    globals: Word,
    node: usize,
) -> Result<Option<Items<A>>, NoTurn>
    requires { node < length (nodes_in sets.now) }
    ensures all { IfOk result (λ found. IfSome found (λ items. (x : Found) → IsAmong items.keys x
        ↔ IsFound (machine_by graphs.now asserts.now)
        (by_number (nodes_in sets.now)) globals node x)) }
    ensures passes { IfOk result (λ found. IsSome found
        → SomeHeadFails (machine_by graphs.now asserts.now)
        (by_number (nodes_in sets.now)) globals node → ⊥) }
    ensures fails { result ≡ Ok None
        → SomeHeadFails (machine_by graphs.now asserts.now)
        (by_number (nodes_in sets.now)) globals node }
    ensures work { left.new ≤ left.old }
    ensures taken { IfOk result (λ found. IfSome found (λ items.
        left.new + length items.keys ≤ left.old)) }
{
    let mut items = IndexSet::new(alloc);
    start(sets, &mut items, left, globals, node)?;
    if saturate(alloc, graphs, asserts, sets, &mut items, left)? {
        return Ok(None);
    }
    Ok(Some(items))
}
