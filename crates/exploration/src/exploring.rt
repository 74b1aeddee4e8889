//! The search over a program.

ghost use Rattle.std.specs.Prelude.{◌≡◌, ◌<◌, ◌≤◌, ◌+◌, ◌^◌, IfErr, IfOk, length};
ghost use Rattle.checked.specs.Programs.{checked_tree};
ghost use Rattle.exploration.specs.Ends.{HasRoom};
ghost use Rattle.exploration.specs.Reports.{CountsSearch, IsCause, IsReport, IsStop, SaysEnd};
ghost use Rattle.exploration.specs.Searched.{threads_by};
ghost use Rattle.language.specs.Resolve.{meaning_of};
ghost use Rattle.language.specs.Rounds.{Unsafe};
ghost use Rattle.resolved.specs.Narrow.{AllNarrow};
ghost use Rattle.turns.specs.Between.{FailsBelow};

use crate::limits::{Rounds, WorkLimit};
use crate::report::{Answer, NoVerdict, Report};
use crate::searching::{End, Search, Stopped};
use crate::start::thread_procedures;
use checked::Checked;
use source_graphs::{NoGraphs, SourceGraphs, source_graphs};
use stack_sets::{NoTurn, TakesTurns};
use std::alloc::Allocator;

/// What a search found that came to this end.
fn report<A: Allocator + Copy>(search: &Search<A>, end: End, most: u64) -> Report
    requires work { search.now.left + length search.now.tuples.keys ≤ most }
    requires room { HasRoom end }
    ensures end { SaysEnd end result }
    ensures counts { CountsSearch search.now end most result }
{
    let (answer, rounds, settled, failed) = match end {
        End::Fails(round) => (Answer::Unsafe, round + 1, false, 1),
        End::Holds(rounds) => (Answer::Safe, rounds, false, 0),
        End::Settles(rounds) => (Answer::Safe, rounds, true, 0),
    };
    let tuples = search.tuples.len() as u64;
    Report {
        answer,
        rounds,
        settled,
        turns: search.turns.turns.len() as u64 + failed,
        heads: most - search.left - tuples,
        tuples,
        nodes: search.sets.len() as u64,
    }
}

/// What is found of a program without threads.
const NOTHING: Report = Report {
    answer: Answer::Safe,
    rounds: 0,
    settled: true,
    turns: 0,
    heads: 0,
    tuples: 0,
    nodes: 0,
};

/// What a search over threads that begin in these procedures comes to.
fn explore_threads<T: TakesTurns<A>, G: Allocator, A: Allocator + Copy>(
    alloc: A,
    source: &SourceGraphs<G>,
    procedures: &[u8],
    rounds: Rounds,
    limit: WorkLimit,
) -> Result<Report, NoVerdict>
    requires { length procedures.now ≤ 8 }
    ensures report { IfOk result
        (IsReport (FailsBelow (threads_by source.now procedures.now)) rounds) }
    ensures stop { IfErr result (IsStop (FailsBelow (threads_by source.now procedures.now))) }
{
    if procedures.is_empty() {
        return Ok(NOTHING);
    }
    let mut search = match Search::new(alloc, source, procedures, limit) {
        Ok(search) => search,
        Err(NoTurn::Memory) => return Err(NoVerdict::Memory),
        Err(NoTurn::Limit) => return Err(NoVerdict::Limit(0)),
    };
    match search.run::<T, G>(alloc, source, procedures, rounds) {
        Ok(end) => Ok(report(&search, end, u64::from(limit.most()))),
        Err(Stopped::Memory) => Err(NoVerdict::Memory),
        Err(Stopped::Limit(round)) => Err(NoVerdict::Limit(round)),
    }
}

/// Whether some run of a program fails an assert, in the rounds asked for: a search over rounds of turns, which `T`
/// makes. It waits for nobody. No answer comes if a procedure has more than 128 places, if an allocation is refused, or
/// if more would be found and met than the limit.
pub fn explore<T: TakesTurns<A>, N: Allocator, A: Allocator + Copy>(
    alloc: A,
    program: &Checked<N>,
    rounds: Rounds,
    limit: WorkLimit,
) -> Result<Report, NoVerdict>
    // The answer is `Unsafe` if and only if some run of the rounds asked for fails, with the least number of rounds of
    // which one does; where it is settled, no run of any number of rounds fails.
    ensures report { IfOk result
        (IsReport (Unsafe (meaning_of (checked_tree program.now))) rounds) }
    // There is an answer only if no procedure is too wide.
    ensures narrow { IfOk result (λ _. AllNarrow (checked_tree program.now)) }
    // The cause is that some procedure is too wide, that memory was refused, or the limit; then no run of the number of
    // rounds that it says fails.
    ensures cause { IfErr result (IsCause (checked_tree program.now)) }
{
    let source = match source_graphs(&alloc, program) {
        Ok(source) => source,
        Err(NoGraphs::TooWide) => return Err(NoVerdict::TooWide),
        Err(NoGraphs::Memory) => return Err(NoVerdict::Memory),
    };
    let Ok(procedures) = thread_procedures(alloc, program) else {
        return Err(NoVerdict::Memory);
    };
    explore_threads::<T, A, A>(alloc, &source, procedures.as_slice(), rounds, limit)
}
