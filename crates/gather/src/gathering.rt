//! What lanes left, gathered.
ghost use Rattle.std.specs.Prelude.{◌≡◌, ◌∷◌, ◌++◌, [], List, IfOk, length};
ghost use Rattle.gather.specs.Findings.{ends_in};
ghost use Rattle.gather.specs.Gathered.{rank_of, verdict_of, IsLeastOf};
ghost use Rattle.gather.specs.Gathered.{IsLesser, AreRead, Gathers};

use crate::finding::Finding;
use flow_graph::Graphs;
use path_sets::PathSet;
use procedure_worker::End;
use std::alloc::{AllocError, Allocator};
use summaries::{NoVerdict, Summaries, Summary, collect};
use switchboard::Cause;

/// The failure of a worker: the number of its procedure, and the cause.
#[derive(Clone, Copy)]
pub(crate) struct Failure {
    procedure: usize,
    cause: Cause,
}

/// The rank of a cause: of several the one that `NoVerdict` lists first is returned.
fn rank(cause: Cause) -> u8
    ensures { result ≡ rank_of cause }
{
    match cause {
        Cause::Memory => 0,
        Cause::EdgeLimit => 1,
        Cause::NoWorker => 2,
        Cause::Spent => 3,
    }
}

/// Why there is no verdict, if a worker has failed.
fn verdict_for(failure: Failure) -> NoVerdict
    ensures { result ≡ verdict_of failure }
{
    match failure.cause {
        Cause::Memory => NoVerdict::Memory,
        Cause::EdgeLimit => NoVerdict::EdgeLimit(failure.procedure),
        Cause::NoWorker => NoVerdict::NoWorker,
        Cause::Spent => NoVerdict::Spent,
    }
}

/// The failure with the lesser rank, of two equal ones the first.
fn lesser(one: Option<Failure>, other: Failure) -> Failure
    ensures { IsLesser one other result }
{
    match one {
        Some(one) if rank(one.cause) <= rank(other.cause) => one,
        _ => other,
    }
}

/// The least failure, if the worker of the next procedure, with this number, ended like this.
fn least_with(least: Option<Failure>, procedure: usize, end: End) -> Option<Failure>
    ensures { (ends : List End) → length ends ≡ procedure → IsLeastOf ends least
        → IsLeastOf (ends ++ end ∷ []) result }
{
    match end {
        End::Failed(cause) => Some(lesser(least, Failure { procedure, cause })),
        End::Closed | End::Aborted => least,
    }
}

/// The failure of the least rank, if a worker has failed.
fn least<A: Allocator>(findings: &[Finding<A>]) -> Option<Failure>
    ensures { IsLeastOf (ends_in findings.now) result }
{
    let mut least = None;
    for procedure in 0..findings.len() {
        least = least_with(least, procedure, findings[procedure].end());
    }
    least
}

/// What was read off the tables, in the order of the lanes. An error is lack of memory, also that of a lane while it
/// read its table off.
fn summaries_in<A: Allocator + Copy>(
    alloc: A,
    findings: Vec<Finding<A>, A>,
) -> Result<Vec<Summary<A>, A>, AllocError>
    ensures { IfOk result (λ ss. AreRead findings.items ss.items) }
{
    let mut summaries = Vec::new(alloc);
    for finding in findings {
        match finding {
            Finding::Closed(summary) => summaries.push(summary)?,
            Finding::Unread(_) => return Err(AllocError),
            Finding::Aborted | Finding::Failed(..) => {}
        }
    }
    Ok(summaries)
}

/// The summaries of the program, from what the lanes of its board have left, if every worker ended at the close and
/// memory suffices; otherwise the cause of the least rank that an end names. What it says holds for the ledger that
/// the board leaves.
pub fn gather<G, A, S>(
    alloc: A,
    graphs: &Graphs<G>,
    findings: Vec<Finding<A>, A>,
) -> Result<Summaries<A>, NoVerdict>
where
    G: Allocator,
    A: Allocator + Copy,
    S: PathSet<A>,
    ensures { Gathers S.members graphs.now findings.items result }
{
    if let Some(failure) = least(&findings) {
        return Err(verdict_for(failure));
    }
    let summaries = summaries_in(alloc, findings)?;
    Ok(collect::<G, A, S>(graphs, summaries))
}
