//! From the bytes of a text to a reply.
ghost use Rattle.std.specs.Prelude.{◌≡◌, ◌⊎◌, ◌≤◌, ◌++◌, IfOk, None, Some, codes, true};
ghost use Rattle.std.specs.String.{string_bytes};
ghost use Rattle.checked.specs.Programs.{checked_tree};
ghost use Rattle.path_sets.specs.EdgeLimits.{most_of};
ghost use Rattle.round_rewrite.specs.Programs.{count_of};
ghost use Rattle.refusals.specs.Lines.{memory_line};
ghost use Rattle.refusals.specs.declared.refusal.Refusal.TheVariants as why;
ghost use Rattle.cli.specs.Counted.{HasEach, answer_line, answer_status, lines_behind};
ghost use Rattle.cli.specs.Counts.{procedure_names};
ghost use Rattle.cli.specs.Replies.{IsPastLimit, IsSequential, Refuses, RefusesFor, Replies};
ghost use Rattle.cli.specs.Replies.{TellsRefusal, TellsOrLacks};
ghost use Rattle.cli.specs.Verdict.{Answers};
ghost use Rattle.streams.specs.Written.{IsReplyWith, bytes_of};

use crate::checking::checked;
use crate::counts::push_counts;
use crate::judge::judge;
use crate::reply::Reply;
use crate::sequential::sequential;
use flow_graph::Graphs;
use gather::{Answer, CrewBoard, CrewSet, Report};
use orders::Order;
use path_sets::DiagramEdges;
use procedure_worker::{Gate, Open};
use refusals::{MEMORY_LINE, Refusal, line, status};
use round_rewrite::Rounds;
use scopes::Checked;
use std::alloc::{AllocError, Allocator};
use std::borrow::CowSlice;
use std::sync::Wait;
use std::thread::Threads;
use summaries::{Due, EdgeLimit};
use switchboard::LockPerBox;

/// The reply if an allocation was refused: a fixed text, which takes no memory.
pub fn no_memory<A: Allocator>() -> Reply<A>
    ensures bytes { bytes_of result ≡ memory_line }
    ensures status { result.status ≡ 3 }
    ensures refusal { result.refusal ≡ Some why.Memory }
{
    Reply {
        bytes: CowSlice::Borrowed(MEMORY_LINE.as_bytes()),
        status: 3,
        refusal: Some(Refusal::Memory),
    }
}

/// The reply to a text that gets no verdict: the line of the refusal, or, if the line has an offset and memory ran out
/// for it, the reply for lack of memory.
fn refused<A: Allocator>(alloc: A, refusal: Refusal) -> Reply<A>
    ensures { TellsOrLacks refusal result }
{
    let status = status(&refusal);
    match line(alloc, &refusal) {
        Ok(bytes) => Reply {
            bytes,
            status,
            refusal: Some(refusal),
        },
        Err(_) => no_memory(),
    }
}

/// The reply for a report on a program: the verdict and, if they are asked for, the counts. Only the counts take
/// memory.
fn reported<N: Allocator, H: Allocator, A: Allocator>(
    alloc: A,
    program: &Checked<N>,
    report: &Report<H, A>,
    stats: bool,
) -> Reply<A>
    requires { HasEach (procedure_names (checked_tree program.now)) report.now }
    ensures { (bytes_of result
        ≡ answer_line report.now.answer ++ lines_behind stats
        (procedure_names (checked_tree program.now)) report.now)
        × (result.status ≡ answer_status report.now.answer) × (result.refusal ≡ None)
        ⊎ (stats ≡ true) × TellsRefusal why.Memory result }
{
    let (word, status) = match report.answer {
        Answer::Safe => ("safe\n", 0),
        Answer::Unsafe => ("unsafe\n", 1),
    };
    if !stats {
        return Reply::fixed(word, status);
    }
    match with_counts(alloc, word, program, report) {
        Ok(lines) => Reply {
            bytes: CowSlice::Owned(lines.into_bytes()),
            status,
            refusal: None,
        },
        Err(_) => no_memory(),
    }
}

/// The verdict, followed by the counts of each procedure.
fn with_counts<N: Allocator, H: Allocator, A: Allocator>(
    alloc: A,
    word: &str,
    program: &Checked<N>,
    report: &Report<H, A>,
) -> Result<String<A>, AllocError>
    requires { HasEach (procedure_names (checked_tree program.now)) report.now }
    ensures { IfOk result (λ s. string_bytes s
        ≡ word.now ++ lines_behind true (procedure_names (checked_tree program.now)) report.now) }
{
    let mut lines = String::from_str(alloc, word)?;
    push_counts(
        &mut lines,
        program.program(),
        &report.summaries,
        report.ledger.histories.as_slice(),
    )?;
    Ok(lines)
}

/// The reply to a text that is to be checked.
fn verdict<R, B, S, K>(
    rt: &R,
    heap: B::Heap,
    alloc: S::Heap,
    text: &[u8],
    rounds: Rounds,
    edges: EdgeLimit,
    stats: bool,
    gate: &K,
) -> Reply<S::Heap>
where
    R: Wait + Threads + Sync,
    B: CrewBoard,
    S: CrewSet,
    K: Gate + Sync,
    ensures { Answers text.now (count_of rounds) (most_of edges) stats
        (bytes_of result) result.status
        × (result.refusal ≡ None)
        ⊎ RefusesFor text.now (count_of rounds) (Some (most_of edges)) result }
{
    let program = match checked(alloc, text) {
        Ok(program) => program,
        Err(why) => return refused(alloc, why),
    };
    match judge::<R, B, S, K, S::Heap>(rt, heap, alloc, &program, rounds, edges, gate) {
        Ok(report) => reported(alloc, &program, &report, stats),
        Err(why) => refused(alloc, why),
    }
}

/// The reply to a text that is to be rewritten.
fn rewriting<A: Allocator + Copy>(alloc: A, text: &[u8], rounds: Rounds) -> Reply<A>
    ensures { ((result.status ≡ 0) × IsSequential text.now (count_of rounds) (bytes_of result))
        × (result.refusal ≡ None)
        ⊎ RefusesFor text.now (count_of rounds) None result }
{
    match sequential(alloc, text, rounds) {
        Ok(printed) => Reply {
            bytes: CowSlice::Owned(printed.into_bytes()),
            status: 0,
            refusal: None,
        },
        Err(refusal) => refused(alloc, refusal),
    }
}

/// `answer` with a board of the type `B`, whose memory is that of `heap`, and sets of path edges of the type `S`; all
/// other memory is that of `alloc`. The workers call the gate when they have taken or posted a message. Whichever these
/// are, and whatever the schedule of the workers, a reply with status 0 or 1 has the same bytes.
pub fn answer_with<R, B, S, K>(
    rt: &R,
    heap: B::Heap,
    alloc: S::Heap,
    text: &[u8],
    order: Order,
    gate: &K,
) -> Reply<S::Heap>
where
    R: Wait + Threads + Sync,
    B: CrewBoard,
    S: CrewSet,
    K: Gate + Sync,
    ensures answers { result.status ≤ 1 → Replies text.now order (bytes_of result) result.status }
    ensures silent { result.status ≤ 1 → result.refusal ≡ None }
    ensures refuses { 2 ≤ result.status → Refuses text.now order result }
    ensures limit { result.status ≡ 3 → bytes_of result ≡ codes "no verdict: edge limit\n"
        → IsPastLimit text.now order }
    ensures status { result.status ≤ 3 }
{
    match order {
        Order::Check {
            rounds,
            edges,
            stats,
        } => verdict::<R, B, S, K>(rt, heap, alloc, text, rounds, edges, stats, gate),
        Order::Sequential { rounds } => rewriting(alloc, text, rounds),
    }
}

/// The reply to a text. If its status is 0 or 1, the text is that of a checked program. For `Check`, no procedure of
/// the program's rewriting then has more path edges than the limit, and the reply is `unsafe` with status 1 if and only
/// if some run of at most K rounds fails an assert, and otherwise `safe` with 0; with `stats` a line follows for each
/// procedure of the rewriting, which counts its entry valuations, its pairs and the messages due for it. For
/// `Sequential`, the bytes are the printed form of the rewriting, with status 0, and within the limits of texts they
/// are read back as it. If the status is 2, a fault of the text stands, and the bytes are its line. If it is 3, there
/// is no verdict: memory ran out, some procedure has more path edges than the limit, a thread was refused, or a worker
/// used up its calls. A reply with status 2 or 3 has the refusal that stands, and one with 0 or 1 has none.
pub fn answer<R>(rt: &R, text: &[u8], order: Order) -> Reply<R::A>
where
    R: Alloc + Wait + Threads + Sync,
    R::A: Copy + Send + Sync,
    ensures answers { result.status ≤ 1 → Replies text.now order (bytes_of result) result.status }
    ensures silent { result.status ≤ 1 → result.refusal ≡ None }
    ensures refuses { 2 ≤ result.status → Refuses text.now order result }
    ensures limit { result.status ≡ 3 → bytes_of result ≡ codes "no verdict: edge limit\n"
        → IsPastLimit text.now order }
    ensures status { result.status ≤ 3 }
{
    answer_with::<R, LockPerBox<Due, Graphs<R::A>, R::A>, DiagramEdges<R::A>, Open>(
        rt,
        rt.alloc(),
        rt.alloc(),
        text,
        order,
        &Open,
    )
}
