//! Nodes of a turn whose heads are put over the final numbers of what lies below them.

ghost use Rattle.std.specs.Prelude.{◌≡◌, ◌<◌, ◌+◌, IfOk, IfSome, length};
ghost use Rattle.naming.specs.Moves.{HasNumber, IsMoved, IsMovedNode, IsNumber, ReachesBelow};

use crate::order::put_in_order;
use stack_sets::{Head, Node};
use std::alloc::{AllocError, Allocator};

/// The final number of a node, if it has one: nodes from before have their own.
fn number_now(base: usize, names: &[Option<usize>], number: usize) -> Option<usize>
    ensures { IfSome result (IsMoved base (HasNumber names.now) number) }
{
    if number < base {
        Some(number)
    } else {
        *names.get(number - base)?
    }
}

/// The node over the final numbers, if what lies below each of its heads has one.
pub(crate) fn move_now<A: Allocator>(
    alloc: A,
    base: usize,
    names: &[Option<usize>],
    node: &Node<A>,
) -> Result<Option<Node<A>>, AllocError>
    ensures { IfOk result
        (λ moved. IfSome moved (IsMovedNode base (HasNumber names.now) node.now)) }
{
    let mut heads = Vec::new(alloc);
    for head in node.heads.as_slice() {
        let Some(below) = number_now(base, names, head.below) else {
            return Ok(None);
        };
        heads.push(Head {
            frame: head.frame,
            below,
        })?;
    }
    put_in_order(&mut heads);
    Ok(Some(Node {
        bare: node.bare,
        heads,
    }))
}

/// The final number of a node, where all have one.
fn last_number(base: usize, names: &[usize], number: usize) -> usize
    requires { number < base + length names.now }
    ensures { IsMoved base (IsNumber names.now) number result }
{
    if number < base {
        number
    } else {
        names[number - base]
    }
}

/// The node over the final numbers, where all have one.
pub(crate) fn move_all<A: Allocator>(
    alloc: A,
    base: usize,
    names: &[usize],
    node: &Node<A>,
) -> Result<Node<A>, AllocError>
    requires { ReachesBelow (base + length names.now) node.now }
    ensures { IfOk result (IsMovedNode base (IsNumber names.now) node.now) }
{
    let mut heads = Vec::new(alloc);
    for head in node.heads.as_slice() {
        heads.push(Head {
            frame: head.frame,
            below: last_number(base, names, head.below),
        })?;
    }
    put_in_order(&mut heads);
    Ok(Node {
        bare: node.bare,
        heads,
    })
}
