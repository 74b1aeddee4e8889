//! The results of workers if memory is refused.

use crate::workers::program::Trial;
use crate::workers::report::answer;
use cases::{Outcome, Sweep, Swept};
use gather::Answer;
use scarce::Scarce;
use std::alloc::{AllocError, Global};
use std::sync::Wait;
use std::thread::Threads;
use summaries::NoVerdict;

/// The outcome of a run that came to an answer: a run that is refused memory has none.
fn outcome(
    scarce: &Scarce<Global>,
    came: Result<Answer, NoVerdict>,
    whole: Result<Answer, NoVerdict>,
) -> Outcome {
    match came {
        Err(NoVerdict::Memory) => Outcome::Memory,
        Ok(_) if came == whole && !scarce.refused() => Outcome::Whole,
        _ => Outcome::Other,
    }
}

impl<R: Wait + Threads + Sync> Trial<'_, R> {
    /// Writes the answer, if each run of the sweep that is refused an allocation comes to lack of memory.
    pub fn write_refused(&self, out: &mut String, sweep: Sweep) -> Result<(), AllocError> {
        let whole = answer(self.rt, self.alloc, self.asked);
        let swept = sweep.of(self.alloc, |scarce: &Scarce<Global>| {
            outcome(scarce, answer(self.rt, scarce, self.asked), whole)
        });
        match swept {
            Swept::Kept(refused) if refused >= 20 => {
                write!(
                    out,
                    "{whole:?}, and lack of memory if an allocation is refused"
                )
            }
            _ => write!(out, "{swept:?}"),
        }
    }
}
