//! Inner nodes that are counted if memory is refused.

use crate::sets::nodes::fill;
use crate::sets::sets::{Spot, contains, spot_of};
use cases::{Outcome, Sweep, Swept};
use language::Word;
use path_sets::{DiagramEdges, OrderedEdges, PathSet};
use scarce::Scarce;
use std::alloc::{AllocError, Allocator, Global};

/// Whether two sets have equally many members, and the same for 1,300 valuations at a point and at the next
/// one.
fn are_alike<A: Allocator, B: Allocator, S: PathSet<A>, T: PathSet<B>>(
    one: &S,
    other: &T,
    spot: Spot,
) -> bool {
    let next = spot.1.wrapping_add(1);
    one.len() == other.len()
        && (0..1_300u64).all(|number| {
            let values = number.wrapping_mul(13) as Word;
            let here = (spot.0, spot.1, values);
            let there = (spot.0, next, values);
            contains(one, here) == contains(other, here)
                && contains(one, there) == contains(other, there)
        })
}

/// Takes some steps on a set of diagrams, and then counts the nodes at one point. Returns how many allocations were
/// requested before the count, and the count.
fn counted_in<A: Allocator + Copy>(
    alloc: Global,
    scarce: &Scarce<Global>,
    set: &mut DiagramEdges<A>,
    words: &str,
    spot: Spot,
) -> Result<(u64, u64), AllocError> {
    fill(alloc, set, words)?;
    let before = scarce.asked();
    Ok((before, set.nodes(spot.0, spot.1)?))
}

/// The same on an empty set in memory of `room`, which is that of `scarce`.
fn counted<A: Allocator + Copy>(
    alloc: Global,
    scarce: &Scarce<Global>,
    room: A,
    words: &str,
    spot: Spot,
) -> Result<(u64, u64), AllocError> {
    let mut set: DiagramEdges<A> = PathSet::empty(room);
    let counted = counted_in(alloc, scarce, &mut set, words, spot);
    drop(set);
    counted
}

/// Counts the nodes at one point of a set of diagrams that has the members of another set, and counts again if the
/// first count is refused memory. The set stays as it was.
fn outcome_of<A: Allocator + Copy, B: Allocator, T: PathSet<B>>(
    set: &DiagramEdges<A>,
    other: &T,
    spot: Spot,
    wanted: u64,
) -> Outcome {
    let first = set.nodes(spot.0, spot.1);
    if !are_alike(set, other, spot) {
        return Outcome::Other;
    }
    match first {
        Ok(count) if count == wanted => Outcome::Whole,
        Err(_) if set.nodes(spot.0, spot.1) == Ok(wanted) => Outcome::Memory,
        _ => Outcome::Other,
    }
}

/// The same after some steps on an empty set in memory of `room`, which is that of `scarce`, if none of them is refused
/// memory.
fn outcome_in<A: Allocator + Copy, B: Allocator, T: PathSet<B>>(
    alloc: Global,
    scarce: &Scarce<Global>,
    room: A,
    other: &T,
    words: &str,
    spot: Spot,
    wanted: u64,
) -> Outcome {
    let mut set: DiagramEdges<A> = PathSet::empty(room);
    let outcome = match fill(alloc, &mut set, words) {
        Ok(()) if !scarce.refused() => outcome_of(&set, other, spot, wanted),
        _ => Outcome::Memory,
    };
    drop(set);
    outcome
}

/// Writes the count with ample memory, if each run of the sweep comes to it or to lack of memory, at least one of them
/// in the count itself. The set is compared with one of the type `T` after the same steps.
fn compared<B: Allocator, T: PathSet<B>>(
    alloc: Global,
    room: B,
    out: &mut String,
    sweep: Sweep,
    words: &str,
    spot: Spot,
) -> Result<(), AllocError> {
    let mut other = T::empty(room);
    fill(alloc, &mut other, words)?;
    let ample = Scarce::refusing(alloc, 0);
    let (before, wanted) = counted(alloc, &ample, &ample, words, spot)?;
    let swept = sweep.of(alloc, |scarce: &Scarce<Global>| {
        outcome_in(alloc, scarce, scarce, &other, words, spot, wanted)
    });
    match swept {
        Swept::Kept(refused) if refused > before => write!(out, "memory, and then {wanted}"),
        _ => write!(out, "{swept:?}"),
    }
}

/// Writes it for an entry and a point, and the steps before the count.
pub fn refused_counts(
    alloc: Global,
    out: &mut String,
    sweep: Sweep,
    words: &str,
) -> Result<(), AllocError> {
    let (spot, words) = words.split_once(' ').unwrap_or((words, ""));
    let (spot, _) = spot_of(spot);
    compared::<_, OrderedEdges<_>>(alloc, alloc, out, sweep, words, spot)
}
