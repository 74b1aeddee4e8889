//! Cases of flow graphs.
//!
//! A case is `ROUNDS | QUESTION | TEXT`: the text is checked and rewritten for so many rounds, and the question is put
//! to the flow graphs of the result (`graphs/answers.rt`). With each allocation for the graphs refused in turn, it is
//! answered if its answer holds in each run.

mod answers;
mod refusals;

use crate::sequential::rewritten;
use cases::Sweep;
use refusals::{each_refused, plain};
use std::alloc::{AllocError, Allocator, Global};

/// The answer to a case, if it has one in each run of the sweep, if any.
fn answered<A: Allocator + Copy>(alloc: A, sweep: Option<Sweep>, case: &str) -> Option<String<A>> {
    let (rounds, rest) = case.split_once(" | ")?;
    let (question, text) = rest.split_once(" | ")?;
    let sequential = rewritten(alloc, text, rounds.parse().ok()?)?;
    match sweep {
        Some(sweep) => each_refused(alloc, sweep, &sequential, question),
        None => plain(alloc, &sequential, question),
    }
}

/// Writes the answer to a case.
pub fn answer(
    alloc: Global,
    out: &mut String,
    sweep: Option<Sweep>,
    case: &str,
) -> Result<(), AllocError> {
    match answered(alloc, sweep, case) {
        Some(answer) => out.push_str(answer.as_str()),
        None => out.push_str("no answer"),
    }
}
