//! The result for a checked program: a report, or why there is none.

ghost use Rattle.std.specs.Prelude.{◌≡◌, ℕ, List, Some, IfErr, IfOk};
ghost use Rattle.syntax.specs.Text.{Text};
ghost use Rattle.checked.specs.Programs.{checked_tree};
ghost use Rattle.round_rewrite.specs.Programs.{count_of};
ghost use Rattle.path_sets.specs.EdgeLimits.{most_of};
ghost use Rattle.cli.specs.Refused.{IsToldAs, RefusalStands, place_of_name};
ghost use Rattle.gather.specs.Reports.{IsReport};

use gather::{CrewBoard, CrewSet, Report, check_rounds_with};
use procedure_worker::Gate;
use refusals::Refusal;
use round_rewrite::{Rounds, too_wide};
use scopes::Checked;
use std::alloc::Allocator;
use std::sync::Wait;
use std::thread::Threads;
use summaries::{EdgeLimit, NoVerdict};

/// Where the name of a procedure of the rewriting is in the text. That of the first, `main__`, is not in it.
fn place_of_name<N: Allocator>(program: &Checked<N>, number: usize) -> Option<u32>
    ensures { result ≡ place_of_name (checked_tree program.now) number }
{
    if number == 0 {
        return None;
    }
    Some(program.program().procs.get(number - 1)?.name.at)
}

/// The refusal for a cause: if the rewriting is too wide, with the first procedure that is; if the limit of path edges
/// was passed, with the procedure that passed it.
fn refusal_of<N: Allocator, A: Allocator + Copy>(
    alloc: &A,
    program: &Checked<N>,
    rounds: Rounds,
    cause: NoVerdict,
) -> Refusal
    ensures { IsToldAs (checked_tree program.now) (count_of rounds) cause result }
{
    match cause {
        NoVerdict::TooWide => Refusal::TooWide(too_wide(alloc, program, rounds)),
        NoVerdict::Memory => Refusal::Memory,
        NoVerdict::EdgeLimit(number) => Refusal::EdgeLimit(place_of_name(program, number)),
        NoVerdict::NoWorker => Refusal::NoWorker,
        NoVerdict::Spent => Refusal::Spent,
    }
}

/// The report on a checked program for K rounds, with at most `edges` path edges per procedure: the workers have the
/// board `B`, keep path edges in sets of the type `S`, and call the gate when they have taken or posted a message.
pub(crate) fn judge<R, B, S, K, N>(
    rt: &R,
    heap: B::Heap,
    alloc: S::Heap,
    program: &Checked<N>,
    rounds: Rounds,
    edges: EdgeLimit,
    gate: &K,
) -> Result<Report<B::Heap, S::Heap>, Refusal>
where
    R: Wait + Threads + Sync,
    B: CrewBoard,
    S: CrewSet,
    K: Gate + Sync,
    N: Allocator,
    ensures report { IfOk result
        (IsReport (checked_tree program.now) (count_of rounds) (most_of edges)) }
    ensures stands { (text : List ℕ) → Text text (checked_tree program.now)
        → IfErr result (RefusalStands text (count_of rounds) (Some (most_of edges))) }
{
    match check_rounds_with::<R, B, S, K, N>(rt, heap, alloc, program, rounds, edges, gate) {
        Ok(report) => Ok(report),
        Err(cause) => Err(refusal_of(&alloc, program, rounds, cause)),
    }
}
