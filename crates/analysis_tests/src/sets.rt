//! Cases of sets of path edges.
//!
//! | Line | What is printed under it |
//! |---|---|
//! | `set STEPS` | what each step on an empty set returns |
//! | `many N WIDTH POINTS` | whether both kinds of sets answer alike to N triples in no order, of WIDTH bits (below 128), POINTS points and 8 entries |
//! | `many N WIDTH POINTS TURN` | the same, if eight other entries follow after TURN triples each |
//! | `nodes STEPS` | what each step on an empty set of diagrams returns |
//! | `each allocation: many KIND N WIDTH` | whether a set (`ordered` or `diagrams`) takes N triples of WIDTH bits all the same if each allocation is refused in turn |
//! | `each allocation: set KIND N` | whether a set of N triples is as it was at each refused allocation, and takes none twice |
//! | `each allocation: nodes 5.2 STEPS` | the result of `@5.2` after the other steps if each of its allocations is refused in turn |
//!
//! | Step | What it does |
//! |---|---|
//! | `+5.2.7` | inserts the triple of entry 5, point 2 and valuation 7: `new`, `known`, or `refused` without memory |
//! | `?5.2.7` | asks for it: `in` or `out` |
//! | `#` | counts the triples |
//! | `*5.2.100.3` | inserts the 100 least multiples of 3, and tells how many are new |
//! | `^5.2.8` | inserts the valuations of 8 bits with an even number of ones, and tells how many are new |
//! | `@5.2` | of diagrams: counts the inner nodes of entry 5 at point 2 |
//!
//! A valuation is a number, whose bits are the places.

mod many;
mod nodes;
mod refused_nodes;
mod sets;

use crate::sweeps::write_swept;
use cases::{Sweep, first_word};
use many::{agree, takes_each};
use nodes::counts;
use refused_nodes::refused_counts;
use sets::{Kind, keeps_each, steps};
use std::alloc::{AllocError, Global};

/// Writes the result of a case.
pub fn answer(
    alloc: Global,
    out: &mut String,
    sweep: Option<Sweep>,
    head: &str,
    text: &str,
) -> Result<(), AllocError> {
    match sweep {
        Some(sweep) => refused(alloc, out, sweep, head, text),
        None => plain(alloc, out, head, text),
    }
}

/// Writes the result of a case with ample memory.
fn plain(alloc: Global, out: &mut String, head: &str, text: &str) -> Result<(), AllocError> {
    match head {
        "set" => steps(alloc, out, text),
        "many" => agree(alloc, out, text),
        "nodes" => counts(alloc, out, text),
        _ => Ok(()),
    }
}

/// Writes the result of a case whose allocations are refused in turn.
fn refused(
    alloc: Global,
    out: &mut String,
    sweep: Sweep,
    head: &str,
    text: &str,
) -> Result<(), AllocError> {
    if head == "nodes" {
        return refused_counts(alloc, out, sweep, text);
    }
    let (name, numbers) = text.split_once(' ').unwrap_or((text, ""));
    match (head, Kind::named(name)) {
        ("many", Some(kind)) => write_swept(out, takes_each(alloc, sweep, kind, numbers), "taken"),
        ("set", Some(kind)) => {
            let (different, _) = first_word(numbers);
            write_swept(out, keeps_each(alloc, sweep, kind, different), "kept")
        }
        _ => Ok(()),
    }
}
