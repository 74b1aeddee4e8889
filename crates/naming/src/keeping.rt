//! The final numbers of a turn's nodes: a node with a content that is known already is the node that has it.

ghost use Rattle.std.specs.Prelude.{◌≡◌, ◌<◌, ◌+◌, ◌++◌, ◌∷◌, [], IfOk, OnOk, Some, length};
ghost use Rattle.std.specs.Prelude.{slice_get};
ghost use Rattle.std.specs.Prelude.{slice_set};
ghost use Rattle.naming.specs.Moves.{AreKept, HasNumber, HaveNumbers, IsFilled, IsNumber};
ghost use Rattle.naming.specs.Moves.{MayAddMoved, NoneHas, ReachBelow, ReachesBelow, filled};
ghost use Rattle.stack_sets.specs.Nodes.{IsPrefix, nodes_in};

use crate::circles::{keep_circle, note_rest};
use crate::moving::{move_all, move_now};
use crate::part::{Part, node_at};
use stack_sets::{NoTurn, Node, StackSets};
use std::alloc::{AllocError, Allocator};

/// The node at an index.
pub(crate) fn node_in<A: Allocator>(nodes: &[Node<A>], index: usize) -> &Node<A>
    requires { index < length nodes.now }
    ensures { slice_get nodes.now index ≡ Some result.now }
{
    &nodes[index]
}

/// The number at an index, if it is there yet.
pub(crate) fn name_at(names: &[Option<usize>], index: usize) -> Option<usize>
    requires { index < length names.now }
    ensures { slice_get names.now index ≡ Some result }
{
    names[index]
}

/// Puts the number of an index down.
fn set_name(names: &mut [Option<usize>], index: usize, number: usize)
    requires { index < length names.old }
    ensures { names.new ≡ slice_set names.old index (Some number) }
{
    names[index] = Some(number);
}

/// No numbers, for so many nodes.
fn no_names<A: Allocator>(alloc: A, count: usize) -> Result<Vec<Option<usize>, A>, AllocError>
    ensures count { IfOk result (λ names. length names.items ≡ count) }
    ensures none { IfOk result (λ names. NoneHas names.items) }
{
    let mut names = Vec::new(alloc);
    for _ in 0..count {
        names.push(None)?;
    }
    Ok(names)
}

/// Keeps the node at an index, if it has no number yet and what lies below its heads has one. Returns whether it did.
fn keep_at<A: Allocator + Copy>(
    alloc: A,
    base: usize,
    nodes: &[Node<A>],
    index: usize,
    names: &mut [Option<usize>],
    sets: &mut StackSets<A>,
) -> Result<bool, AllocError>
    requires at { index < length nodes.now }
    requires kept { HaveNumbers base nodes.now names.old (nodes_in sets.old) }
    ensures kept { OnOk result (HaveNumbers base nodes.now names.new (nodes_in sets.new)) }
    ensures keeps { IsPrefix (nodes_in sets.old) (nodes_in sets.new) }
{
    if name_at(names, index).is_some() {
        return Ok(false);
    }
    let Some(moved) = move_now(alloc, base, names, node_in(nodes, index))? else {
        return Ok(false);
    };
    let number = sets.keep(moved)?;
    set_name(names, index, number);
    Ok(true)
}

/// Keeps each node that can be kept, in order. Returns whether there was one.
fn keep_some<A: Allocator + Copy>(
    alloc: A,
    base: usize,
    nodes: &[Node<A>],
    names: &mut [Option<usize>],
    sets: &mut StackSets<A>,
) -> Result<bool, AllocError>
    requires { HaveNumbers base nodes.now names.old (nodes_in sets.old) }
    ensures kept { OnOk result (HaveNumbers base nodes.now names.new (nodes_in sets.new)) }
    ensures keeps { IsPrefix (nodes_in sets.old) (nodes_in sets.new) }
{
    let mut some = false;
    for index in 0..nodes.len() {
        if keep_at(alloc, base, nodes, index, names, sets)? {
            some = true;
        }
    }
    Ok(some)
}

/// Keeps nodes until no more can be kept. Those that are left are on a circle, or over one.
fn keep_most<A: Allocator + Copy>(
    alloc: A,
    base: usize,
    nodes: &[Node<A>],
    names: &mut [Option<usize>],
    sets: &mut StackSets<A>,
) -> Result<(), AllocError>
    requires { HaveNumbers base nodes.now names.old (nodes_in sets.old) }
    ensures kept { OnOk result (HaveNumbers base nodes.now names.new (nodes_in sets.new)) }
    ensures keeps { IsPrefix (nodes_in sets.old) (nodes_in sets.new) }
{
    for _ in 0..nodes.len() {
        if !keep_some(alloc, base, nodes, names, sets)? {
            break;
        }
    }
    Ok(())
}

/// Keeps nodes, and circles that are known, until no more are found.
fn keep_known<A: Allocator + Copy>(
    alloc: A,
    base: usize,
    nodes: &[Node<A>],
    parts: &[Part],
    names: &mut Vec<Option<usize>, A>,
    sets: &mut StackSets<A>,
) -> Result<(), AllocError>
    requires { HaveNumbers base nodes.now names.old.items (nodes_in sets.old) }
    ensures kept { OnOk result (HaveNumbers base nodes.now names.new.items (nodes_in sets.new)) }
    ensures keeps { IsPrefix (nodes_in sets.old) (nodes_in sets.new) }
{
    keep_most(alloc, base, nodes, names.as_mut_slice(), sets)?;
    for _ in 0..nodes.len() {
        if !keep_circle(alloc, base, nodes, parts, names, sets)? {
            break;
        }
        keep_most(alloc, base, nodes, names.as_mut_slice(), sets)?;
    }
    Ok(())
}

/// Adds a number.
fn add_name<A: Allocator>(all: &mut Vec<usize, A>, number: usize) -> Result<(), AllocError>
    ensures { OnOk result (all.new.items ≡ all.old.items ++ number ∷ []) }
{
    all.push(number)?;
    Ok(())
}

/// The number, or the next one that is free.
fn fill_one(name: Option<usize>, next: &mut usize) -> Result<usize, NoTurn>
    ensures { IfOk result (λ n. IsFilled name next.old n next.new) }
{
    match name {
        Some(number) => Ok(number),
        None => {
            let number = *next;
            *next = node_at(number, 1)?;
            Ok(number)
        }
    }
}

/// The final numbers: an index without one gets the next that is free.
fn fill<A: Allocator>(
    alloc: A,
    first: usize,
    names: &[Option<usize>],
) -> Result<Vec<usize, A>, NoTurn>
    ensures { IfOk result (λ all. all.items ≡ filled first names.now) }
{
    let mut all = Vec::new(alloc);
    let mut next = first;
    for name in names {
        let number = fill_one(*name, &mut next)?;
        add_name(&mut all, number)?;
    }
    Ok(all)
}

/// Adds a node, moved, if it had no number.
fn add_at<A: Allocator + Copy>(
    alloc: A,
    base: usize,
    node: &Node<A>,
    name: Option<usize>,
    all: &[usize],
    sets: &mut StackSets<A>,
) -> Result<(), AllocError>
    requires { ReachesBelow (base + length all.now) node.now }
    ensures adds { OnOk result
        (MayAddMoved base (IsNumber all.now) node.now name (nodes_in sets.old)
        (nodes_in sets.new)) }
    ensures keeps { IsPrefix (nodes_in sets.old) (nodes_in sets.new) }
{
    if name.is_none() {
        let moved = move_all(alloc, base, all, node)?;
        sets.add(moved)?;
    }
    Ok(())
}

/// Adds the nodes that had no number, in order.
fn add_rest<A: Allocator + Copy>(
    alloc: A,
    base: usize,
    nodes: &[Node<A>],
    names: &[Option<usize>],
    all: &[usize],
    sets: &mut StackSets<A>,
) -> Result<(), AllocError>
    requires reach { ReachBelow (base + length nodes.now) nodes.now }
    requires kept { HaveNumbers base nodes.now names.now (nodes_in sets.old) }
    requires all { all.now ≡ filled (length (nodes_in sets.old)) names.now }
    ensures kept { OnOk result
        (AreKept base (IsNumber all.now) (IsNumber all.now) nodes.now (nodes_in sets.new)) }
    ensures keeps { IsPrefix (nodes_in sets.old) (nodes_in sets.new) }
{
    for index in 0..nodes.len() {
        let name = name_at(names, index);
        add_at(alloc, base, node_in(nodes, index), name, all, sets)?;
    }
    Ok(())
}

/// The final numbers of nodes, which are put into the sets.
pub(crate) fn keep_all<A: Allocator + Copy>(
    alloc: A,
    base: usize,
    nodes: &[Node<A>],
    parts: &[Part],
    sets: &mut StackSets<A>,
) -> Result<Vec<usize, A>, NoTurn>
    requires base { base ≡ length (nodes_in sets.old) }
    requires reach { ReachBelow (base + length nodes.now) nodes.now }
    ensures count { IfOk result (λ all. length all.items ≡ length nodes.now) }
    ensures kept { IfOk result
        (λ all. AreKept base (IsNumber all.items) (IsNumber all.items) nodes.now
        (nodes_in sets.new)) }
    ensures keeps { IsPrefix (nodes_in sets.old) (nodes_in sets.new) }
{
    let mut names = no_names(alloc, nodes.len())?;
    keep_known(alloc, base, nodes, parts, &mut names, sets)?;
    let all = fill(alloc, sets.len(), names.as_slice())?;
    add_rest(alloc, base, nodes, names.as_slice(), all.as_slice(), sets)?;
    note_rest(
        alloc,
        base,
        nodes,
        parts,
        names.as_mut_slice(),
        all.as_slice(),
        sets,
    )?;
    Ok(all)
}
