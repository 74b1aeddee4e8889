//! The crew of a board: a worker for each mailbox.
ghost use Rattle.std.specs.Prelude.{◌≡◌, ◌≤◌, [], length, map, vec_capacity, IfOk};
ghost use Rattle.gather.specs.Ends.{IsCrew, HaveReturned};
ghost use Rattle.jobs.specs.Jobs.{first_of, second_of};
ghost use Rattle.gather.specs.Lanes.{AreLanes};

use crate::finding::Finding;
use crate::kinds::{CrewBoard, CrewSet, WorkBoard, WorkSet};
use crate::lane::Lane;
use jobs::{Hire, JobResult, run_all};
use procedure_worker::{Context, Gate};
use std::alloc::{AllocError, Allocator};
use std::marker::PhantomData;
use std::sync::Wait;
use std::thread::Threads;

/// The lanes of all passes, in their order.
fn lanes_of<'c, 'g, R: Wait, B: WorkBoard, S: WorkSet, K: Gate>(
    context: &'c Context<'c, 'g, R, B::Heap, B, K>,
    alloc: S::Heap,
    passes: Vec<B::Pass, B::Heap>,
) -> Result<Vec<Lane<'c, 'g, R, B::Pass, B::Heap, S::Heap, B, S, K>, S::Heap>, AllocError>
where
    B::Pass: Drop,
    requires { IsCrew context.now.graphs.now context.now.limit
        (B.identity context.now.board.now) (map B.sight passes.items) }
    ensures { IfOk result (λ ls. AreLanes B.identity B.sight context.now.graphs.now
        context.now.limit (B.identity context.now.board.now) ls.items) }
{
    let mut lanes = Vec::with_capacity(alloc, passes.len())?;
    for pass in passes {
        let number = lanes.len() as u8;
        lanes.push_reserved(Lane {
            context,
            alloc,
            pass,
            number,
            set: PhantomData,
        });
    }
    Ok(lanes)
}

/// Runs a worker for each procedure, each in a thread of its own, until all have ended, and returns each pass with what
/// its lane found, in the order of the mailboxes. If a start is refused, the passes of that lane and of those after it
/// abort the board for that, and each comes with evidence of the refusal. An error is lack of memory, before any thread
/// was started.
pub(crate) fn work_all<'c, 'g, R, B, S, K, H>(
    context: &'c Context<'c, 'g, R, B::Heap, B, K>,
    alloc: S::Heap,
    passes: Vec<B::Pass, B::Heap>,
    hire: &H,
) -> Result<Vec<JobResult<(B::Pass, Finding<S::Heap>)>, S::Heap>, AllocError>
where
    R: Wait + Threads + Sync,
    B: CrewBoard,
    S: CrewSet,
    K: Gate + Sync,
    H: Hire,
    requires { IsCrew context.now.graphs.now context.now.limit
        (B.identity context.now.board.now) (map B.sight passes.items) }
    ensures { IfOk result (λ results. HaveReturned S.members B.sight context.now.graphs.now
        context.now.limit (B.identity context.now.board.now) results.items) }
{
    let lanes = lanes_of::<R, B, S, K>(context, alloc, passes)?;
    // By the borrow checker of the kit, a result that is returned as it comes would still borrow what the lanes did.
    let results = run_all(context.rt, alloc, lanes, hire)?;
    Ok(results)
}

/// Splits the pairs that result into two lists that have room for them.
fn split_into<P: Drop, O: Drop, H: Allocator, A: Allocator>(
    results: Vec<JobResult<(P, O)>, A>,
    firsts: &mut Vec<P, H>,
    seconds: &mut Vec<O, A>,
)
    requires room { (length results.items ≤ vec_capacity firsts.old)
        × (length results.items ≤ vec_capacity seconds.old) }
    requires empty { (firsts.old.items ≡ []) × (seconds.old.items ≡ []) }
    ensures firsts { firsts.new.items ≡ map first_of results.items }
    ensures seconds { seconds.new.items ≡ map second_of results.items }
{
    for result in results {
        let (first, second) = result.returned();
        firsts.push_reserved(first);
        seconds.push_reserved(second);
    }
}

/// Splits the pairs that result into two lists. It is generic in what they hold, so that no caller has the drops of a
/// list that is still empty.
pub(crate) fn split_results<P: Drop, O: Drop, H: Allocator, A: Allocator>(
    heap: H,
    alloc: A,
    results: Vec<JobResult<(P, O)>, A>,
) -> Result<(Vec<P, H>, Vec<O, A>), AllocError>
    ensures { IfOk result (λ r. (r.0.items ≡ map first_of results.items)
        × (r.1.items ≡ map second_of results.items)) }
{
    let mut firsts = Vec::with_capacity(heap, results.len())?;
    let mut seconds = Vec::with_capacity(alloc, results.len())?;
    split_into(results, &mut firsts, &mut seconds);
    Ok((firsts, seconds))
}
