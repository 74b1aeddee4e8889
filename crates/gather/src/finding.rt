//! What a lane leaves beside its pass.
ghost use Rattle.std.specs.Prelude.{◌≡◌, Some};
ghost use Rattle.summaries.specs.declared.table.Table.{Table};
ghost use Rattle.gather.specs.Findings.{finding_end, IsLeftOf};

use path_sets::PathSet;
use procedure_worker::{End, OutOfMemory, Outcome, read_off};
use std::alloc::Allocator;
use summaries::Summary;
use switchboard::Cause;

/// What a lane leaves beside its pass: what its table found, or why that is not known.
#[derive(Drop)]
pub enum Finding<A: Allocator> {
    /// Its worker ended at the close, and this was read off its table.
    Closed(Summary<A>),
    /// Its worker ended at the close, but its table was not read off: there is evidence that memory was refused for that.
    Unread(OutOfMemory),
    /// Its worker ended at the abort of another pass.
    Aborted,
    /// Its pass aborted the board for this cause; for lack of memory there is evidence that memory was refused.
    Failed(Cause, Option<OutOfMemory>),
}

impl<A: Allocator> Finding<A> {
    /// How the lane ended.
    pub fn end(&self) -> End
        ensures { result ≡ finding_end self.now }
    {
        match self {
            Finding::Closed(_) | Finding::Unread(_) => End::Closed,
            Finding::Aborted => End::Aborted,
            Finding::Failed(cause, _) => End::Failed(*cause),
        }
    }
}

/// What is left of the outcome of a worker. Its table is read off if the worker ended at the close; otherwise it is of
/// no use, since what it found need not be all.
pub(crate) fn finding_of<G: Allocator, A: Allocator + Copy, S: PathSet<A>>(
    alloc: A,
    outcome: Outcome<'_, G, A, S>,
) -> Finding<A>
    requires { (t : Table G A S) × (outcome.table ≡ Some t) }
    ensures { IsLeftOf outcome.entry result }
{
    let Outcome {
        table,
        end,
        out_of_memory,
    } = outcome;
    let Some(table) = table else { unreachable!() };
    match end {
        End::Closed => match read_off(alloc, table) {
            Ok(summary) => Finding::Closed(summary),
            Err(evidence) => Finding::Unread(evidence),
        },
        End::Aborted => Finding::Aborted,
        End::Failed(cause) => Finding::Failed(cause, out_of_memory),
    }
}
