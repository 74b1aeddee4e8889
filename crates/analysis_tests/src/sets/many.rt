//! Many path edges in both kinds of sets: so many that sets of diagrams put what they gather into the
//! diagrams.

use crate::sets::sets::{Kind, contains, insert};
use cases::{Outcome, Sweep, Swept, first_word};
use language::Word;
use path_sets::{DiagramEdges, OrderedEdges, PathSet};
use scarce::Scarce;
use std::alloc::{AllocError, Allocator, Global};

/// Which path edges: how many, of how many bits, at how many points, and after how many of them others of eight entries
/// follow, if ever.
#[derive(Clone, Copy)]
struct Shape {
    count: u64,
    width: u32,
    points: u64,
    turn: u64,
}

/// The path edge of a number, in no order, of one of the eight entries whose turn it is.
fn scattered(shape: Shape, number: u64) -> (Word, usize, Word) {
    let mixed = number.wrapping_mul(0x9e37_79b9_7f4a_7c15);
    let values = (mixed as Word) << 64 | (mixed ^ mixed >> 29) as Word;
    let kept = values & (1u128 << (shape.width % 128)).wrapping_sub(1);
    let point = (mixed >> 40).checked_rem(shape.points).unwrap_or(0);
    let turns = number.checked_div(shape.turn).unwrap_or(0);
    let entry = (turns as Word) << 3 | (mixed >> 61) as Word;
    (entry, point as usize, kept)
}

/// Whether two sets have equally many members, and the same for the edges of the numbers below this one.
fn have_alike<A: Allocator, B: Allocator, S: PathSet<A>, T: PathSet<B>>(
    one: &S,
    other: &T,
    shape: Shape,
    numbers: u64,
) -> bool {
    for number in 0..numbers {
        let edge = scattered(shape, number);
        if contains(one, edge) != contains(other, edge) {
            return false;
        }
    }
    one.len() == other.len()
}

/// Inserts the edge of a number, again if memory is refused; returns nothing if the set is then no longer like
/// another one.
fn insert_again<A: Allocator, B: Allocator, S: PathSet<A>, T: PathSet<B>>(
    one: &mut S,
    other: &T,
    shape: Shape,
    number: u64,
) -> Result<Option<bool>, AllocError> {
    let edge = scattered(shape, number);
    match insert(one, edge) {
        Ok(added) => Ok(Some(added)),
        Err(_) if have_alike(one, other, shape, number.saturating_add(1)) => {
            Ok(Some(insert(one, edge)?))
        }
        Err(_) => Ok(None),
    }
}

/// Whether two sets answer alike to each edge that is inserted, and are alike at a refusal.
fn insert_alike<A: Allocator, B: Allocator, S: PathSet<A>, T: PathSet<B>>(
    one: &mut S,
    other: &mut T,
    shape: Shape,
) -> Result<bool, AllocError> {
    for number in 0..shape.count {
        let added = insert_again(one, other, shape, number)?;
        if added != Some(insert(other, scattered(shape, number))?) {
            return Ok(false);
        }
    }
    Ok(true)
}

/// Whether two empty sets are alike after these edges.
fn fill_alike<A: Allocator, B: Allocator, S: PathSet<A>, T: PathSet<B>>(
    room: A,
    ample: B,
    shape: Shape,
) -> Result<bool, AllocError> {
    let mut one = S::empty(room);
    let mut other = T::empty(ample);
    let alike = insert_alike(&mut one, &mut other, shape)?;
    Ok(alike && have_alike(&one, &other, shape, shape.count.saturating_mul(2)))
}

/// Writes whether both kinds of sets answer alike.
pub fn agree(alloc: Global, out: &mut String, numbers: &str) -> Result<(), AllocError> {
    let (count, rest) = first_word(numbers);
    let (width, rest) = first_word(rest);
    let (points, rest) = first_word(rest);
    let shape = Shape {
        count,
        width: (width % 128) as u32,
        points,
        turn: first_word(rest).0,
    };
    let alike = fill_alike::<_, _, DiagramEdges<_>, OrderedEdges<_>>(alloc, alloc, shape)?;
    write!(out, "{}", if alike { "agree" } else { "differ" })
}

/// A set that takes so many edges, whichever of its allocations is refused.
pub fn takes_each(alloc: Global, sweep: Sweep, kind: Kind, numbers: &str) -> Swept {
    let (count, width) = first_word(numbers);
    let shape = Shape {
        count,
        width: (first_word(width).0 % 128) as u32,
        points: 150,
        turn: 100,
    };
    sweep.of(alloc, |scarce: &Scarce<Global>| {
        let alike = match kind {
            Kind::Ordered => {
                fill_alike::<_, _, OrderedEdges<_>, DiagramEdges<_>>(scarce, alloc, shape)
            }
            Kind::Diagrams => {
                fill_alike::<_, _, DiagramEdges<_>, OrderedEdges<_>>(scarce, alloc, shape)
            }
        };
        match alike {
            Ok(true) => Outcome::Whole,
            _ => Outcome::Other,
        }
    })
}
