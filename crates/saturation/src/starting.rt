//! The first items of a turn.

ghost use Rattle.std.specs.Prelude.{◌≡◌, ◌<◌, ◌≤◌, ◌+◌, OnOk, length};
ghost use Rattle.turns.specs.Saturated.{First};
ghost use Rattle.stack_sets.specs.Nodes.{by_number, nodes_in};
ghost use Rattle.saturation.specs.Items.{Extends};
ghost use Rattle.saturation.specs.Leads.{HaveAll, OfSome};
ghost use Rattle.saturation.specs.Starts.{first_item, IsStart};

use crate::found::{Items, reach};
use crate::item::{Below, Item, Top};
use language::Word;
use stack_sets::{Head, NoTurn, StackSets};
use std::alloc::Allocator;

/// A head of a node from before, with the globals at first.
fn first(globals: Word, head: Head) -> Item
    ensures { result ≡ first_item globals head }
{
    Item::Head(Top {
        globals,
        frame: head.frame,
        below: Below::Old(head.below),
    })
}

/// Adds heads of a node from before.
fn start_heads<A: Allocator>(
    items: &mut Items<A>,
    left: &mut u64,
    globals: Word,
    heads: &[Head],
) -> Result<(), NoTurn>
    ensures all { OnOk result (HaveAll (OfSome (IsStart globals) heads.now) items.new.keys) }
    ensures only { Extends (OfSome (IsStart globals) heads.now) items.old.keys items.new.keys }
    ensures work { left.new + length items.new.keys ≤ left.old + length items.old.keys }
{
    for head in heads {
        reach(items, left, first(globals, *head))?;
    }
    Ok(())
}

/// Adds the first items of a turn: the heads of its node, and the empty stack if it is in the node.
pub(crate) fn start<A: Allocator + Copy>(
    sets: &StackSets<A>,
    items: &mut Items<A>,
    left: &mut u64,
    globals: Word,
    number: usize,
) -> Result<(), NoTurn>
    requires { number < length (nodes_in sets.now) }
    ensures all { OnOk result
        (HaveAll (First (by_number (nodes_in sets.now)) globals number) items.new.keys) }
    ensures only { Extends
        (First (by_number (nodes_in sets.now)) globals number) items.old.keys items.new.keys }
    ensures work { left.new + length items.new.keys ≤ left.old + length items.old.keys }
{
    let node = sets.node(number);
    start_heads(items, left, globals, node.heads.as_slice())?;
    if node.bare {
        reach(items, left, Item::Gone(globals))?;
    }
    Ok(())
}
