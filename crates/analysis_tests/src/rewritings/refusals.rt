//! Cases with each allocation refused in turn.

use crate::rewritings::answers::words;
use cases::{Outcome, Sweep, Swept};
use scarce::Scarce;
use std::alloc::{AllocError, Allocator, Global};

/// Answers a case, which has to give the wanted words.
fn outcome<A: Allocator + Copy>(
    host: Global,
    alloc: A,
    word: &str,
    rest: &str,
    wanted: &str,
) -> Outcome {
    match words(host, alloc, word, rest) {
        Ok(given) if given.as_str() == wanted => Outcome::Whole,
        Ok(given) if given.as_str().ends_with("memory") => Outcome::Memory,
        _ => Outcome::Other,
    }
}

/// The answer to a case with ample memory, and a line that says what refusals change.
pub fn refused_in_turn(
    host: Global,
    sweep: Sweep,
    word: &str,
    rest: &str,
) -> Result<String, AllocError> {
    let mut answer = words(host, host, word, rest)?;
    let wanted = answer.as_str();
    let swept = sweep.of(host, |scarce: &Scarce<Global>| {
        outcome(host, scarce, word, rest, wanted)
    });
    match swept {
        Swept::Kept(_) => answer.push_str("\nmemory where an allocation is refused")?,
        _ => write!(answer, "\n{swept:?}")?,
    }
    Ok(answer)
}
