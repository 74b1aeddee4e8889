//! Flow graphs with each of their allocations refused in turn.

use crate::graphs::answers::answer;
use cases::{Outcome, Sweep, Swept};
use flow_graph::graphs;
use resolved::Sequential;
use scarce::Scarce;
use std::alloc::Allocator;

/// The answer to a question on the graphs of a program, if there is memory for them.
pub(crate) fn plain<A: Allocator + Copy>(
    alloc: A,
    sequential: &Sequential<A>,
    question: &str,
) -> Option<String<A>> {
    match graphs(&alloc, sequential) {
        Ok(drawn) => answer(alloc, &drawn, question),
        Err(_) => None,
    }
}

/// Draws the graphs in this memory, whose answer has to be the wanted one.
fn drawn<H: Allocator + Copy, A: Allocator + Copy>(
    heap: H,
    alloc: A,
    sequential: &Sequential<A>,
    question: &str,
    wanted: &str,
) -> Outcome {
    match graphs(&heap, sequential) {
        Ok(drawn) => match answer(alloc, &drawn, question) {
            Some(found) if found.as_str() == wanted => Outcome::Whole,
            _ => Outcome::Other,
        },
        Err(_) => Outcome::Memory,
    }
}

/// The answer to the question, if refusals leave it or leave no graphs. Three allocations can be refused at least: for
/// the list of graphs, and for the flows of two of them.
pub(crate) fn each_refused<A: Allocator + Copy>(
    alloc: A,
    sweep: Sweep,
    sequential: &Sequential<A>,
    question: &str,
) -> Option<String<A>> {
    let answer = plain(alloc, sequential, question)?;
    let wanted = answer.as_str();
    let swept = sweep.of(alloc, |scarce: &Scarce<A>| {
        drawn(scarce, alloc, sequential, question, wanted)
    });
    match swept {
        Swept::Kept(refused) if refused >= 3 => Some(answer),
        _ => None,
    }
}
