//! Sets of path edges.

use crate::sets::nodes::filling;
use cases::{Outcome, Sweep, Swept, first};
use language::Word;
use path_sets::{DiagramEdges, OrderedEdges, PathSet};
use scarce::Scarce;
use std::alloc::{AllocError, Allocator, Global};

/// A kind of sets.
#[derive(Clone, Copy)]
pub enum Kind {
    Ordered,
    Diagrams,
}

impl Kind {
    /// The kind that a row names.
    pub fn named(name: &str) -> Option<Kind> {
        match name {
            "ordered" => Some(Kind::Ordered),
            "diagrams" => Some(Kind::Diagrams),
            _ => None,
        }
    }
}

/// An entry and a point.
pub type Spot = (Word, usize);

/// The first of several numbers separated by points, as a word, and the rest; 0 if there is none.
pub fn first_word(text: &str) -> (Word, &str) {
    let (number, others) = text.split_once('.').unwrap_or((text, ""));
    (number.parse::<Word>().unwrap_or(0), others)
}

/// The entry and the point of two numbers with a point between them, and the numbers after them.
pub fn spot_of(text: &str) -> (Spot, &str) {
    let (entry, text) = first_word(text);
    let (point, text) = first(text);
    ((entry, point as usize), text)
}

/// The triple of three numbers with points between them.
fn triple_of(text: &str) -> (Word, usize, Word) {
    let ((entry, point), rest) = spot_of(text);
    (entry, point, first_word(rest).0)
}

/// Inserts, if the set is small enough.
pub fn insert<A: Allocator, S: PathSet<A>>(
    set: &mut S,
    edge: (Word, usize, Word),
) -> Result<bool, AllocError> {
    if set.len() > 4_000_000 {
        return Err(AllocError);
    }
    set.insert(edge.0, edge.1, edge.2)
}

pub fn contains<A: Allocator, S: PathSet<A>>(set: &S, edge: (Word, usize, Word)) -> bool {
    set.contains(edge.0, edge.1, edge.2)
}

/// Writes what each step on an empty ordered set returns, and on one of diagrams where that differs.
pub fn steps(alloc: Global, out: &mut String, words: &str) -> Result<(), AllocError> {
    let ordered = steps_of::<OrderedEdges<_>>(alloc, words)?;
    let diagrams = steps_of::<DiagramEdges<_>>(alloc, words)?;
    out.push_str(ordered.as_str())?;
    if diagrams.as_str() != ordered.as_str() {
        write!(out, "diagrams: {}", diagrams.as_str())?;
    }
    Ok(())
}

/// What each step on an empty set of the type `S` returns.
fn steps_of<S: PathSet<Global>>(alloc: Global, words: &str) -> Result<String, AllocError> {
    let mut out = String::new(alloc);
    let mut set = S::empty(alloc);
    for word in words.split_whitespace() {
        filling(&mut set, &mut out, word)?;
    }
    Ok(out)
}

/// Writes what a step on a set returns.
pub fn step<A: Allocator, S: PathSet<A>>(
    set: &mut S,
    out: &mut String,
    word: &str,
) -> Result<(), AllocError> {
    if let Some(edge) = word.strip_prefix('+') {
        match insert(set, triple_of(edge)) {
            Ok(true) => write!(out, "new "),
            Ok(false) => write!(out, "known "),
            Err(_) => write!(out, "refused "),
        }
    } else if let Some(edge) = word.strip_prefix('?') {
        let is_member = contains(set, triple_of(edge));
        write!(out, "{}", if is_member { "in " } else { "out " })
    } else {
        write!(out, "{} ", set.len())
    }
}

/// The edge of a number, at one of 7 points and of one of 9 entries; a number of different ones, and then the first
/// ones again.
fn edge_of(different: u64, number: u64) -> (Word, usize, Word) {
    let number = number.checked_rem(different).unwrap_or(0);
    (
        (number % 9) as Word,
        (number % 7) as usize,
        (number.wrapping_mul(40_503) % 1000) as Word,
    )
}

/// Whether the set has the edges of the numbers below this one, and none of the others.
fn has_below<A: Allocator, S: PathSet<A>>(set: &S, different: u64, number: u64) -> bool {
    (0..different).all(|n| contains(set, edge_of(different, n)) == (n < number))
}

/// Inserts the edge of a number, again if memory is refused; returns whether the set then has it once, and if
/// memory was refused had all as it was, and no other.
fn keeps<A: Allocator, S: PathSet<A>>(
    set: &mut S,
    different: u64,
    number: u64,
) -> Result<bool, AllocError> {
    let edge = edge_of(different, number);
    let before = set.len();
    let known = contains(set, edge);
    let (added, kept) = match insert(set, edge) {
        Ok(added) => (added, true),
        Err(_) => {
            let kept = set.len() == before && has_below(set, different, number);
            (insert(set, edge)?, kept)
        }
    };
    let counted = set.len() == number.saturating_add(1).min(different);
    Ok(kept && counted && added != known && contains(set, edge))
}

/// Whether a set keeps a number of different edges, and then takes none of the first 20 again.
fn keeps_all<A: Allocator, S: PathSet<A>>(set: &mut S, different: u64) -> Result<bool, AllocError> {
    for number in 0..different.saturating_add(20) {
        if !keeps(set, different, number)? {
            return Ok(false);
        }
    }
    Ok(has_below(set, different, different))
}

/// Whether a set of the type `S` keeps its edges, and takes no memory while it is empty.
fn outcome<'a, S: PathSet<&'a Scarce<Global>>>(
    scarce: &'a Scarce<Global>,
    different: u64,
) -> Outcome {
    let mut set = S::empty(scarce);
    match (scarce.asked(), keeps_all(&mut set, different)) {
        (0, Ok(true)) => Outcome::Whole,
        _ => Outcome::Other,
    }
}

/// A set that keeps a number of different edges, whichever of its allocations is refused.
pub fn keeps_each(alloc: Global, sweep: Sweep, kind: Kind, different: u64) -> Swept {
    sweep.of(alloc, |scarce: &Scarce<Global>| match kind {
        Kind::Ordered => outcome::<OrderedEdges<_>>(scarce, different),
        Kind::Diagrams => outcome::<DiagramEdges<_>>(scarce, different),
    })
}
