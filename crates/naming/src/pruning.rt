//! The nodes of a turn without heads over stacks that a node has by another of its heads too.

ghost use Rattle.language.specs.Lists.{Member};
ghost use Rattle.std.specs.Prelude.{◌<◌, length, ◌++◌, IfOk, IsPermutation, IsTrue, OnOk};
ghost use Rattle.stack_sets.specs.Nodes.{nodes_in};
ghost use Rattle.stack_sets.specs.Within.{AreWithin, found_in};
ghost use Rattle.naming.specs.Pruned.{AreEnough, ArePruned, Covers, IsCovered, IsPruned, MayKeep};

use crate::order::put_in_order;
use stack_sets::{Head, Inclusions, Node, Pair, StackSets};
use std::alloc::{AllocError, Allocator};

/// Whether the second head has the frame of the first, over a node with all stacks of the one below the first.
fn covers<A: Allocator + Copy>(
    alloc: A,
    sets: &StackSets<A>,
    nodes: &[Node<A>],
    known: &mut Inclusions<A>,
    head: Head,
    other: Head,
) -> Result<bool, AllocError>
    requires known { AreWithin (nodes_in sets.now ++ nodes.now) (found_in known.old) }
    ensures known { OnOk result
        (AreWithin (nodes_in sets.now ++ nodes.now) (found_in known.new)) }
    ensures covers { IfOk result (λ yes. IsTrue yes
        → Covers (nodes_in sets.now ++ nodes.now) head other) }
{
    if other.frame != head.frame {
        return Ok(false);
    }
    let pair = Pair {
        under: head.below,
        over: other.below,
    };
    known.is_within(alloc, sets, nodes, pair)
}

/// The head at an index.
fn head_at(heads: &[Head], index: usize) -> Head
    requires { index < length heads.now }
    ensures { Member result heads.now }
{
    heads[index]
}

/// Whether some head does so, of those at the end that have its frame.
fn is_covered<A: Allocator + Copy>(
    alloc: A,
    sets: &StackSets<A>,
    nodes: &[Node<A>],
    known: &mut Inclusions<A>,
    head: Head,
    kept: &[Head],
) -> Result<bool, AllocError>
    requires known { AreWithin (nodes_in sets.now ++ nodes.now) (found_in known.old) }
    ensures known { OnOk result
        (AreWithin (nodes_in sets.now ++ nodes.now) (found_in known.new)) }
    ensures covered { IfOk result (λ yes. IsTrue yes
        → IsCovered (nodes_in sets.now ++ nodes.now) head kept.now) }
{
    for back in 0..kept.len() {
        let other = head_at(kept, kept.len() - 1 - back);
        if head.frame != other.frame {
            break;
        }
        if covers(alloc, sets, nodes, known, head, other)? {
            return Ok(true);
        }
    }
    Ok(false)
}

/// Keeps a head, unless one that is kept covers it.
fn keep_head<A: Allocator + Copy>(
    alloc: A,
    sets: &StackSets<A>,
    nodes: &[Node<A>],
    known: &mut Inclusions<A>,
    head: Head,
    kept: &mut Vec<Head, A>,
) -> Result<(), AllocError>
    requires known { AreWithin (nodes_in sets.now ++ nodes.now) (found_in known.old) }
    ensures known { OnOk result
        (AreWithin (nodes_in sets.now ++ nodes.now) (found_in known.new)) }
    ensures kept { OnOk result
        (MayKeep (nodes_in sets.now ++ nodes.now) head kept.old.items kept.new.items) }
{
    if is_covered(alloc, sets, nodes, known, head, kept.as_slice())? {
        return Ok(());
    }
    kept.push(head)?;
    Ok(())
}

/// The heads, in order, without each that one before it covers.
fn leave_out<A: Allocator + Copy>(
    alloc: A,
    sets: &StackSets<A>,
    nodes: &[Node<A>],
    known: &mut Inclusions<A>,
    heads: &[Head],
) -> Result<Vec<Head, A>, AllocError>
    requires known { AreWithin (nodes_in sets.now ++ nodes.now) (found_in known.old) }
    ensures known { OnOk result
        (AreWithin (nodes_in sets.now ++ nodes.now) (found_in known.new)) }
    ensures enough { IfOk result
        (λ kept. AreEnough (nodes_in sets.now ++ nodes.now) heads.now kept.items) }
{
    let mut kept = Vec::new(alloc);
    for head in heads {
        keep_head(alloc, sets, nodes, known, *head, &mut kept)?;
    }
    Ok(kept)
}

/// Puts heads into the opposite order.
fn turn_round<A: Allocator>(heads: &mut Vec<Head, A>)
    ensures { IsPermutation heads.old.items heads.new.items }
{
    heads.reverse();
}

/// The heads, put in order.
fn in_order<A: Allocator>(alloc: A, heads: &[Head]) -> Result<Vec<Head, A>, AllocError>
    ensures { IfOk result (λ sorted. IsPermutation heads.now sorted.items) }
{
    let mut sorted = Vec::from_slice(alloc, heads)?;
    put_in_order(&mut sorted);
    Ok(sorted)
}

/// The heads, in an order of their own, without each that another one covers, as far as that is found. Of two that
/// cover each other the one over the node with the smaller number stays.
fn enough_of<A: Allocator + Copy>(
    alloc: A,
    sets: &StackSets<A>,
    nodes: &[Node<A>],
    known: &mut Inclusions<A>,
    heads: &[Head],
) -> Result<Vec<Head, A>, AllocError>
    requires known { AreWithin (nodes_in sets.now ++ nodes.now) (found_in known.old) }
    ensures known { OnOk result
        (AreWithin (nodes_in sets.now ++ nodes.now) (found_in known.new)) }
    ensures enough { IfOk result
        (λ kept. AreEnough (nodes_in sets.now ++ nodes.now) heads.now kept.items) }
{
    let sorted = in_order(alloc, heads)?;
    let mut some = leave_out(alloc, sets, nodes, known, sorted.as_slice())?;
    turn_round(&mut some);
    let mut kept = leave_out(alloc, sets, nodes, known, some.as_slice())?;
    turn_round(&mut kept);
    Ok(kept)
}

/// A node without the heads that others of it cover.
fn prune<A: Allocator + Copy>(
    alloc: A,
    sets: &StackSets<A>,
    nodes: &[Node<A>],
    known: &mut Inclusions<A>,
    node: &Node<A>,
) -> Result<Node<A>, AllocError>
    requires known { AreWithin (nodes_in sets.now ++ nodes.now) (found_in known.old) }
    ensures known { OnOk result
        (AreWithin (nodes_in sets.now ++ nodes.now) (found_in known.new)) }
    ensures pruned { IfOk result (IsPruned (nodes_in sets.now ++ nodes.now) node.now) }
{
    let heads = enough_of(alloc, sets, nodes, known, node.heads.as_slice())?;
    Ok(Node {
        bare: node.bare,
        heads,
    })
}

/// The nodes, which have their numbers behind the kept ones, each without the heads that others of it cover.
pub(crate) fn prune_all<A: Allocator + Copy>(
    alloc: A,
    sets: &StackSets<A>,
    nodes: &[Node<A>],
) -> Result<Vec<Node<A>, A>, AllocError>
    ensures { IfOk result
        (λ pruned. ArePruned (nodes_in sets.now ++ nodes.now) nodes.now pruned.items) }
{
    let mut known = Inclusions::new(alloc);
    let mut pruned = Vec::new(alloc);
    for node in nodes {
        let less = prune(alloc, sets, nodes, &mut known, node)?;
        pruned.push(less)?;
    }
    Ok(pruned)
}
