//! A report on a program: what the workers of its rewriting did and found.
ghost use Rattle.std.specs.Prelude.{◌≡◌, ◌≢◌, ◌≤◌, ◌^◌, ◌↔◌, ℕ, true, length, IfOk, IfErr, Err};
ghost use Rattle.language.specs.Step.{Program};
ghost use Rattle.language.specs.Sequential.{SomeBad};
ghost use Rattle.round_rewrite.specs.Programs.{count_of};
ghost use Rattle.checked.specs.Programs.{checked_tree};
ghost use Rattle.flow_graph.specs.Drawn.{bad_of, graphs_of};
ghost use Rattle.flow_graph.specs.Graphs.{AreDrawnFrom};
ghost use Rattle.path_sets.specs.EdgeLimits.{most_of};
ghost use Rattle.summaries.specs.Tabulated.{HasMoreEdges, SomePairBad};
ghost use Rattle.gather.specs.Reports.{IsFound, IsReport, IsNoReport};

use crate::crew::{split_results, work_all};
use crate::gathering::gather;
use crate::kinds::{CrewBoard, CrewSet};
use checked::Checked;
use flow_graph::{Graphs, graphs};
use jobs::{Always, Hire};
use path_sets::{DiagramEdges, Halves};
use post_ledger::Ledger;
use procedure_worker::{Context, Gate};
use round_rewrite::{RewriteFault, Rounds, rewrite};
use std::alloc::Allocator;
use std::sync::Wait;
use std::thread::Threads;
use summaries::{Caller, Due, EdgeLimit, NoVerdict, Summaries};
use switchboard::LockPerBox;
use ticket_lock::MOST_TICKETS;

/// Whether some run within the rounds fails an assert.
#[derive(Clone, Copy, Debug, PartialEq, Eq)]
pub enum Answer {
    /// None does.
    Safe,
    /// Some run does.
    Unsafe,
}

/// What the workers of a rewritten program did and found, and what follows for the program as it was written.
#[derive(Drop)]
pub struct Report<H: Allocator, A: Allocator> {
    /// Whether the program is safe within the rounds.
    pub answer: Answer,
    /// What was posted, taken and completed, for each mailbox.
    pub ledger: Ledger<Due, H>,
    /// The entries and pairs of each procedure.
    pub summaries: Summaries<A>,
}

/// What the workers of all procedures do and find, a thread for each: the ledger of their board, and the summaries.
fn analyse<R, B, S, K, H>(
    rt: &R,
    heap: B::Heap,
    alloc: S::Heap,
    graphs: &Graphs<B::Heap>,
    limit: EdgeLimit,
    gate: &K,
    hire: &H,
    budget: u64,
) -> Result<(Ledger<Due, B::Heap>, Summaries<S::Heap>), NoVerdict>
where
    R: Wait + Threads + Sync,
    B: CrewBoard,
    S: CrewSet,
    K: Gate + Sync,
    H: Hire,
    requires drawn { (p : Program) × AreDrawnFrom p (graphs_of graphs.now) }
    requires within { (1 ≤ length (graphs_of graphs.now)) × (2 ≤ budget) × (budget ≤ 2 ^ 56) }
    ensures found { (p : Program) → AreDrawnFrom p (graphs_of graphs.now)
        → IfOk result (λ r. IsFound p (most_of limit) r.0.histories.items r.1) }
    ensures closed { IfOk result (λ r. r.0.closed ≡ true) }
    ensures bad { (p : Program) → AreDrawnFrom p (graphs_of graphs.now)
        → IfOk result (λ r. SomePairBad r.1 ↔ SomeBad p (bad_of graphs.now)) }
    ensures limit { (p : Program) → AreDrawnFrom p (graphs_of graphs.now)
        → (q : ℕ) → result ≡ Err (NoVerdict.EdgeLimit q) → HasMoreEdges p q (most_of limit) }
    ensures cause { IfErr result (λ why. why ≢ NoVerdict.TooWide) }
{
    let opening = Due::Entry {
        caller: Caller::Starter,
        a: Halves::new(0),
    };
    let boxes = graphs.len() as u8;
    let (board, passes) = B::open_with_budget(heap, graphs, boxes, 0, opening, budget)?;
    let context = Context {
        rt,
        board: &board,
        gate,
        graphs,
        limit,
    };
    let ended = work_all::<R, B, S, K, H>(&context, alloc, passes, hire)?;
    let (mut back, findings) = split_results(heap, alloc, ended)?;
    let ledger = board.into_ledger(&mut back);
    let summaries = gather::<B::Heap, S::Heap, S>(alloc, graphs, findings)?;
    Ok((ledger, summaries))
}

/// The report on a checked program for K rounds, if no procedure of its rewriting has more path edges than the limit.
/// It is rewritten into a sequential program, whose procedures have a worker each, in a thread of its own, over a board
/// of the type `B`; the path edges are kept in sets of the type `S`. The board and its histories are in memory of
/// `heap`, tables and summaries in that of `alloc`. The gate is called at each take and post. `TooWide` is returned if
/// and only if some procedure of the rewriting has more than 128 places, `EdgeLimit` with the number of a procedure
/// that has more path edges than the limit. Of several causes the one that `NoVerdict` lists first is returned.
///
/// A worker has a thread only if `hire` says that it may; if it says no, or the system refuses a thread, that worker
/// and those after it do nothing but abort the board, and a cause is `NoWorker`. Each worker has one call of the
/// board fewer than `budget`, from 2 to 2^56; if one has used them up, a cause is `Spent`.
pub fn check_rounds_tried<R, B, S, K, H, N>(
    rt: &R,
    heap: B::Heap,
    alloc: S::Heap,
    program: &Checked<N>,
    rounds: Rounds,
    limit: EdgeLimit,
    gate: &K,
    hire: &H,
    budget: u64,
) -> Result<Report<B::Heap, S::Heap>, NoVerdict>
where
    R: Wait + Threads + Sync,
    B: CrewBoard,
    S: CrewSet,
    K: Gate + Sync,
    H: Hire,
    N: Allocator,
    requires budget { (2 ≤ budget) × (budget ≤ 2 ^ 56) }
    ensures report { IfOk result
        (IsReport (checked_tree program.now) (count_of rounds) (most_of limit)) }
    ensures none { IfErr result
        (IsNoReport (checked_tree program.now) (count_of rounds) (most_of limit)) }
{
    let sequential = match rewrite(&heap, program, rounds) {
        Ok(sequential) => sequential,
        Err(RewriteFault::TooWide) => return Err(NoVerdict::TooWide),
        Err(RewriteFault::Memory) => return Err(NoVerdict::Memory),
    };
    let graphs = graphs(&heap, &sequential)?;
    // The rest reads only the graphs.
    drop(sequential);
    let (ledger, summaries) = analyse::<R, B, S, K, H>(
        rt, heap, alloc, &graphs, limit, gate, hire, budget,
    )?;
    let answer = if summaries.bad() {
        Answer::Unsafe
    } else {
        Answer::Safe
    };
    Ok(Report {
        answer,
        ledger,
        summaries,
    })
}

/// The same, if every worker may have a thread, and has 2^56 - 1 calls.
pub fn check_rounds_with<R, B, S, K, N>(
    rt: &R,
    heap: B::Heap,
    alloc: S::Heap,
    program: &Checked<N>,
    rounds: Rounds,
    limit: EdgeLimit,
    gate: &K,
) -> Result<Report<B::Heap, S::Heap>, NoVerdict>
where
    R: Wait + Threads + Sync,
    B: CrewBoard,
    S: CrewSet,
    K: Gate + Sync,
    N: Allocator,
    ensures report { IfOk result
        (IsReport (checked_tree program.now) (count_of rounds) (most_of limit)) }
    ensures none { IfErr result
        (IsNoReport (checked_tree program.now) (count_of rounds) (most_of limit)) }
{
    check_rounds_tried::<R, B, S, K, Always, N>(
        rt,
        heap,
        alloc,
        program,
        rounds,
        limit,
        gate,
        &Always,
        MOST_TICKETS,
    )
}

/// The same over a board with a lock for each mailbox and path edges as decision diagrams, all in memory of one
/// allocator.
pub fn check_rounds<R, A, K, N>(
    rt: &R,
    alloc: A,
    program: &Checked<N>,
    rounds: Rounds,
    limit: EdgeLimit,
    gate: &K,
) -> Result<Report<A, A>, NoVerdict>
where
    R: Wait + Threads + Sync,
    A: Allocator + Copy + Send + Sync,
    K: Gate + Sync,
    N: Allocator,
    ensures report { IfOk result
        (IsReport (checked_tree program.now) (count_of rounds) (most_of limit)) }
    ensures none { IfErr result
        (IsNoReport (checked_tree program.now) (count_of rounds) (most_of limit)) }
{
    check_rounds_with::<R, LockPerBox<Due, Graphs<A>, A>, DiagramEdges<A>, K, N>(
        rt, alloc, alloc, program, rounds, limit, gate,
    )
}
