//! Nodes on circles, or over one: which belong together, and whether they are known.

ghost use Rattle.std.specs.Prelude.{◌≡◌, ◌<◌, ◌++◌, ◌∷◌, [], ℕ, IfOk, IsTrue, OnOk, Some, length};
ghost use Rattle.naming.specs.Moves.{AreAllKept, HasNumber, HaveNumbers, IsKept, IsKeptAt};
ghost use Rattle.naming.specs.Moves.{KeepsNumbers};
ghost use Rattle.stack_sets.specs.Nodes.{nodes_in};

use crate::keeping::{name_at, node_in};
use crate::moving::move_now;
use crate::part::Part;
use stack_sets::{Node, StackSets};
use std::alloc::{AllocError, Allocator};
use std::hash::{FoldHasher, Hash, Hasher};

/// Whether the node at an index has no number yet.
fn is_left(names: &[Option<usize>], index: usize) -> bool {
    match names.get(index) {
        Some(name) => name.is_none(),
        None => false,
    }
}

/// Adds the indexes of nodes without a number over which the heads of a node lie.
fn add_below<A: Allocator>(
    base: usize,
    node: &Node<A>,
    names: &[Option<usize>],
    all: &mut Vec<usize, A>,
) -> Result<(), AllocError> {
    for head in node.heads.as_slice() {
        if head.below >= base {
            let index = head.below - base;
            if is_left(names, index) && !all.as_slice().contains(&index) {
                all.push(index)?;
            }
        }
    }
    Ok(())
}

/// The indexes of the nodes without a number to which one leads, that itself first.
fn reached<A: Allocator + Copy>(
    alloc: A,
    base: usize,
    nodes: &[Node<A>],
    names: &[Option<usize>],
    index: usize,
) -> Result<Vec<usize, A>, AllocError> {
    let mut all = Vec::new(alloc);
    all.push(index)?;
    for at in 0..nodes.len() {
        let Some(index) = all.as_slice().get(at) else {
            break;
        };
        if let Some(node) = nodes.get(*index) {
            add_below(base, node, names, &mut all)?;
        }
    }
    Ok(all)
}

/// The index of the first call whose node has no number.
fn first_left(parts: &[Part], names: &[Option<usize>]) -> Option<usize> {
    for (index, part) in parts.iter().enumerate() {
        if let Part::Call(_) = part {
            if is_left(names, index) {
                return Some(index);
            }
        }
    }
    None
}

/// Puts indexes into an order that depends on their calls alone.
fn sort_by_call(parts: &[Part], all: &mut [usize]) {
    all.sort_unstable_by_key(|index| match parts.get(*index) {
        Some(Part::Call(entry)) => (
            entry.globals,
            entry.frame.procedure,
            entry.frame.point,
            entry.frame.places,
        ),
        _ => (0, 0, 0, 0),
    });
}

/// The indexes of nodes without a number that lead to none but each other, as few as are found; none if no call's node
/// is left.
fn next_circle<A: Allocator + Copy>(
    alloc: A,
    base: usize,
    nodes: &[Node<A>],
    parts: &[Part],
    names: &[Option<usize>],
) -> Result<Vec<usize, A>, AllocError> {
    let Some(first) = first_left(parts, names) else {
        return Ok(Vec::new(alloc));
    };
    let mut all = reached(alloc, base, nodes, names, first)?;
    for _ in 0..nodes.len() {
        let last = *all.as_slice().last().unwrap_or(&first);
        let fewer = reached(alloc, base, nodes, names, last)?;
        if fewer.len() >= all.len() {
            break;
        }
        all = fewer;
    }
    sort_by_call(parts, all.as_mut_slice());
    Ok(all)
}

/// The place of an index among others.
fn place_of(circle: &[usize], index: usize) -> Option<usize> {
    for (place, other) in circle.iter().enumerate() {
        if *other == index {
            return Some(place);
        }
    }
    None
}

/// A hash of a number by which a head of a circle lies: the final one, or the place on the circle.
fn hash_below(base: usize, names: &[Option<usize>], circle: &[usize], below: usize) -> u64 {
    let mut hasher = FoldHasher::default();
    if below < base {
        below.hash(&mut hasher);
    } else {
        let index = below - base;
        match names.get(index) {
            Some(Some(number)) => number.hash(&mut hasher),
            _ => place_of(circle, index).hash(&mut hasher),
        }
    }
    hasher.finish()
}

/// A hash of the content of a node on a circle, whatever the order of its heads.
fn hash_node<A: Allocator>(
    base: usize,
    node: &Node<A>,
    names: &[Option<usize>],
    circle: &[usize],
) -> u64 {
    let mut sum = node.bare as u64;
    for head in node.heads.as_slice() {
        let mut hasher = FoldHasher::default();
        head.frame.hash(&mut hasher);
        hash_below(base, names, circle, head.below).hash(&mut hasher);
        sum = sum.wrapping_add(hasher.finish());
    }
    sum
}

/// A hash of the contents of the nodes of a circle.
// Nothing depends on it but how often a known circle is found.
fn hash_circle<A: Allocator>(
    base: usize,
    nodes: &[Node<A>],
    names: &[Option<usize>],
    circle: &[usize],
) -> u64 {
    let mut hasher = FoldHasher::default();
    for index in circle {
        if let Some(node) = nodes.get(*index) {
            hash_node(base, node, names, circle).hash(&mut hasher);
        }
    }
    hasher.finish()
}

/// The number of the node at an index: the one that it has, or else that of its place on a circle.
fn number_at(
    names: &[Option<usize>],
    index: usize,
    circle: &[usize],
    numbers: &[usize],
) -> Option<usize>
    requires { index < length names.now }
    ensures { (n : ℕ) → HasNumber names.now index n → result ≡ Some n }
{
    let name = name_at(names, index);
    if name.is_some() {
        return name;
    }
    let place = place_of(circle, index)?;
    numbers.get(place).copied()
}

/// Adds a number, or that there is none.
fn add_name<A: Allocator>(
    all: &mut Vec<Option<usize>, A>,
    name: Option<usize>,
) -> Result<(), AllocError>
    ensures { OnOk result (all.new.items ≡ all.old.items ++ name ∷ []) }
{
    all.push(name)?;
    Ok(())
}

/// The numbers with those of a circle.
fn with_circle<A: Allocator>(
    alloc: A,
    names: &[Option<usize>],
    circle: &[usize],
    numbers: &[usize],
) -> Result<Vec<Option<usize>, A>, AllocError>
    ensures count { IfOk result (λ all. length all.items ≡ length names.now) }
    ensures keeps { IfOk result (λ all. KeepsNumbers names.now all.items) }
{
    let mut all = Vec::new(alloc);
    for index in 0..names.len() {
        let name = number_at(names, index, circle, numbers);
        add_name(&mut all, name)?;
    }
    Ok(all)
}

/// Whether a kept node is a node of the turn over final numbers.
fn is_kept<A: Allocator + Copy>(
    alloc: A,
    base: usize,
    names: &[Option<usize>],
    sets: &StackSets<A>,
    node: &Node<A>,
    number: usize,
) -> Result<bool, AllocError>
    ensures { IfOk result (λ yes. IsTrue yes
        → IsKept base (HasNumber names.now) (nodes_in sets.now) node.now number) }
{
    match move_now(alloc, base, names, node)? {
        Some(moved) => Ok(sets.has_content(number, &moved)),
        None => Ok(false),
    }
}

/// Whether this is so of the node at an index, if it has a number.
fn is_kept_at<A: Allocator + Copy>(
    alloc: A,
    base: usize,
    nodes: &[Node<A>],
    index: usize,
    names: &[Option<usize>],
    sets: &StackSets<A>,
) -> Result<bool, AllocError>
    requires at { index < length nodes.now }
    requires count { length names.now ≡ length nodes.now }
    ensures { IfOk result (λ yes. IsTrue yes
        → IsKeptAt base names.now nodes.now (nodes_in sets.now) index) }
{
    let Some(number) = name_at(names, index) else {
        return Ok(true);
    };
    let kept = is_kept(alloc, base, names, sets, node_in(nodes, index), number)?;
    Ok(kept)
}

/// Whether this is so of each node that has a number.
fn are_all_kept<A: Allocator + Copy>(
    alloc: A,
    base: usize,
    nodes: &[Node<A>],
    names: &[Option<usize>],
    sets: &StackSets<A>,
) -> Result<bool, AllocError>
    requires { length names.now ≡ length nodes.now }
    ensures { IfOk result (λ yes. IsTrue yes
        → AreAllKept base names.now nodes.now (nodes_in sets.now)) }
{
    for index in 0..nodes.len() {
        if !is_kept_at(alloc, base, nodes, index, names, sets)? {
            return Ok(false);
        }
    }
    Ok(true)
}

/// Takes numbers over if each node that has one is kept. Returns whether that is so.
fn take_over<A: Allocator + Copy>(
    alloc: A,
    base: usize,
    nodes: &[Node<A>],
    names: &mut Vec<Option<usize>, A>,
    all: Vec<Option<usize>, A>,
    sets: &StackSets<A>,
) -> Result<bool, AllocError>
    requires count { length all.items ≡ length names.old.items }
    requires keeps { KeepsNumbers names.old.items all.items }
    requires kept { HaveNumbers base nodes.now names.old.items (nodes_in sets.now) }
    ensures { OnOk result (HaveNumbers base nodes.now names.new.items (nodes_in sets.now)) }
{
    let are = are_all_kept(alloc, base, nodes, all.as_slice(), sets)?;
    if are {
        *names = all;
    }
    Ok(are)
}

/// Gives the nodes of a circle the numbers of a known one with the same content. Returns whether there was one.
pub(crate) fn keep_circle<A: Allocator + Copy>(
    alloc: A,
    base: usize,
    nodes: &[Node<A>],
    parts: &[Part],
    names: &mut Vec<Option<usize>, A>,
    sets: &StackSets<A>,
) -> Result<bool, AllocError>
    requires { HaveNumbers base nodes.now names.old.items (nodes_in sets.now) }
    ensures { OnOk result (HaveNumbers base nodes.now names.new.items (nodes_in sets.now)) }
{
    let circle = next_circle(alloc, base, nodes, parts, names.as_slice())?;
    let numbers = sets.circles(hash_circle(base, nodes, names.as_slice(), circle.as_slice()));
    if circle.is_empty() || numbers.len() < circle.len() {
        return Ok(false);
    }
    let all = with_circle(alloc, names.as_slice(), circle.as_slice(), numbers)?;
    take_over(alloc, base, nodes, names, all, sets)
}

/// Notes the contents of nodes that had no number, so that they are found again.
fn note_contents<A: Allocator + Copy>(
    names: &[Option<usize>],
    all: &[usize],
    sets: &mut StackSets<A>,
) -> Result<(), AllocError>
    ensures { nodes_in sets.new ≡ nodes_in sets.old }
{
    for (index, number) in all.iter().enumerate() {
        if is_left(names, index) {
            sets.note_content(*number)?;
        }
    }
    Ok(())
}

/// Notes a circle, with the numbers that its nodes get.
fn note_circle<A: Allocator + Copy>(
    hash: u64,
    circle: &[usize],
    names: &mut [Option<usize>],
    all: &[usize],
    sets: &mut StackSets<A>,
) -> Result<(), AllocError>
    ensures { nodes_in sets.new ≡ nodes_in sets.old }
{
    for index in circle {
        if let Some(number) = all.get(*index) {
            sets.note_circle(hash, *number)?;
            if let Some(name) = names.get_mut(*index) {
                *name = Some(*number);
            }
        }
    }
    Ok(())
}

/// Notes the nodes that had no number, and the circles of them.
pub(crate) fn note_rest<A: Allocator + Copy>(
    alloc: A,
    base: usize,
    nodes: &[Node<A>],
    parts: &[Part],
    names: &mut [Option<usize>],
    all: &[usize],
    sets: &mut StackSets<A>,
) -> Result<(), AllocError>
    ensures { nodes_in sets.new ≡ nodes_in sets.old }
{
    note_contents(names, all, sets)?;
    for _ in 0..nodes.len() {
        let circle = next_circle(alloc, base, nodes, parts, names)?;
        if circle.is_empty() {
            break;
        }
        let hash = hash_circle(base, nodes, names, circle.as_slice());
        note_circle(hash, circle.as_slice(), names, all, sets)?;
    }
    Ok(())
}
