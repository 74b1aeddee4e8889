//! Cases that a sweep has to report: `sweep KIND`, with the sweep before it.

use cases::{Outcome, Sweep};
use scarce::Scarce;
use std::alloc::{AllocError, Allocator, Global};

/// A run that asks for one block of memory, and does this with it.
fn run<A: Allocator>(alloc: A, kind: &str) -> Outcome {
    match Vec::<u8, A>::with_capacity(alloc, 8) {
        Ok(block) => match kind {
            "leaks" => {
                let _ = block.leak();
                Outcome::Whole
            }
            "other_answer" => Outcome::Other,
            _ => Outcome::Whole,
        },
        Err(_) => match kind {
            "other_without_memory" => Outcome::Other,
            _ => Outcome::Memory,
        },
    }
}

/// Writes what the sweep says of the runs.
pub fn answer(
    alloc: Global,
    out: &mut String,
    sweep: Option<Sweep>,
    kind: &str,
) -> Result<(), AllocError> {
    let Some(sweep) = sweep else {
        return out.push_str("no sweep");
    };
    let swept = sweep.of(alloc, |scarce: &Scarce<Global>| run(scarce, kind));
    write!(out, "{swept:?}")
}
