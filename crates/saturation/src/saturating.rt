//! All that a turn finds.

ghost use Rattle.std.specs.Prelude.{◌≡◌, ◌<◌, ◌≤◌, ◌+◌, ⊤, false, true, ℕ, Ok, Some, length};
ghost use Rattle.std.specs.Prelude.{slice_get};
ghost use Rattle.saturation.specs.Items.{Extends};
ghost use Rattle.stack_sets.specs.Nodes.{by_number, nodes_in};
ghost use Rattle.saturation.specs.Saturation.{AreFound, IsClosed, SomeFails};
ghost use Rattle.stack_sets.specs.Turns.{machine_by};

use crate::calls::Calls;
use crate::found::{Items, reach};
use crate::item::{Below, Item, Top};
use crate::working::work_on;
use flow_graph::{Asserts, Graphs};
use indexmap::IndexSet;
use language::Word;
use stack_sets::{NoTurn, StackSets};
use std::alloc::Allocator;

/// The item at a place.
fn item_at<A: Allocator>(items: &Items<A>, at: usize) -> Item
    requires { at < length items.now.keys }
    ensures { slice_get items.now.keys at ≡ Some result }
{
    items.as_slice()[at]
}

/// Works on the items, from the first on, until all have been worked on, or one fails. Returns whether one fails.
pub(crate) fn saturate<G: Allocator, A: Allocator + Copy>(
    alloc: A,
    graphs: &Graphs<G>,
    asserts: &Asserts<G>,
    sets: &StackSets<A>,
    items: &mut Items<A>,
    left: &mut u64,
) -> Result<bool, NoTurn>
    ensures found { (globals node : ℕ)
        → AreFound (machine_by graphs.now asserts.now)
        (by_number (nodes_in sets.now)) globals node items.old.keys
        → AreFound (machine_by graphs.now asserts.now)
        (by_number (nodes_in sets.now)) globals node items.new.keys }
    ensures fails { result ≡ Ok true
        → SomeFails (machine_by graphs.now asserts.now) items.new.keys }
    ensures closed { result ≡ Ok false
        → IsClosed (machine_by graphs.now asserts.now)
        (by_number (nodes_in sets.now)) items.new.keys }
    ensures passes { result ≡ Ok false
        → SomeFails (machine_by graphs.now asserts.now) items.new.keys → ⊥ }
    ensures stays { Extends (λ _. ⊤) items.old.keys items.new.keys }
    ensures work { left.new + length items.new.keys ≤ left.old + length items.old.keys }
{
    let mut calls = Calls::new(alloc);
    let mut at = 0;
    'items: while at < items.len() {
        let item = item_at(items, at);
        if work_on(graphs, asserts, sets, items, &mut calls, left, item)? {
            return Ok(true);
        }
        at += 1;
    }
    Ok(false)
}
