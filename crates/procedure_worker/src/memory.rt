//! All requests of a worker for memory. A refused request leaves a witness, which only this file can make.
ghost use Rattle.std.specs.Prelude.{◌≡◌, ◌<◌, OnOk, IfOk, IfErr, IfSome, IfNone, MatchResult};
ghost use Rattle.post_ledger.specs.Orders.{HasJob};
ghost use Rattle.switchboard.specs.Promises.{WasPosted};
ghost use Rattle.summaries.specs.Fitting.{FitsIn};
ghost use Rattle.summaries.specs.Tables.{IsTable, IsAnswer, IsQuiet, KeepsTable, answers_of};
ghost use Rattle.summaries.specs.Together.{IsReadOff};
ghost use Rattle.procedure_worker.specs.Stops.{RefusedFor, FailsFor, TakesOrFails};

use crate::desk::Desk;
use crate::stop::{Reason, Stop};
use flow_graph::Graphs;
use path_sets::PathSet;
use std::alloc::Allocator;
use std::sync::Wait;
use summaries::{Due, Summary, Table, TableFault};
use switchboard::{Board, Job, PostFault};

/// Evidence that memory was refused to a worker: it comes only from such a refusal.
#[derive(Clone, Copy)]
pub struct OutOfMemory(());

/// Posts a message, as the board does.
pub(crate) fn post<R: Wait, G: Allocator, H: Allocator, B: Board<Due, Graphs<G>, H>, K>(
    desk: &Desk<'_, '_, R, G, B, K>,
    pass: &mut B::Pass,
    job: &Job,
    to: u8,
    due: Due,
) -> Result<(), Stop>
    requires board { (B.sight pass.old).board ≡ B.identity desk.now.context.now.board.now }
    requires job { HasJob (B.sight pass.old).number job.now (B.sight pass.old).seen.order }
    requires fits { (to < (B.sight pass.old).seen.boxes)
        × FitsIn (B.sight pass.old).seen.world to due }
    ensures { MatchResult result
        (λ _. WasPosted FitsIn job.now to due (B.sight pass.old) (B.sight pass.new))
        (λ why. RefusedFor FitsIn why (B.sight pass.old) (B.sight pass.new)) }
{
    match desk.context.board.post(desk.context.rt, pass, job, to, due) {
        Ok(()) => Ok(()),
        Err(PostFault::Spent(_)) => Err(Some(Reason::Spent)),
        Err(PostFault::Memory(_)) => Err(Some(Reason::OutOfMemory(OutOfMemory(())))),
        Err(PostFault::Aborted(_)) => Err(None),
    }
}

/// The next message that a table owes, and the procedure that it is for, as the table answers it.
pub(crate) fn next<G: Allocator, A: Allocator + Copy, S: PathSet<A>>(
    table: &mut Table<'_, G, A, S>,
) -> Result<Option<(u8, Due)>, Reason>
    requires { IsTable S.members table.old }
    ensures keeps { OnOk result (KeepsTable S.members None table.old table.new) }
    ensures some { IfOk result (λ r. IfSome r (λ m. IsAnswer table.old table.new m.0 m.1)) }
    ensures none { IfOk result (λ r. IfNone r (answers_of table.new ≡ answers_of table.old)) }
    ensures quiet { IfOk result (λ r. IfNone r (IsQuiet S.members table.new)) }
    ensures fails { IfErr result
        (λ why. FailsFor why (λ f. KeepsTable S.members (Some f) table.old table.new)) }
{
    match table.next() {
        Ok(answer) => Ok(answer),
        Err(TableFault::Memory) => Err(Reason::OutOfMemory(OutOfMemory(()))),
        Err(TableFault::EdgeLimit) => Err(Reason::EdgeLimit),
    }
}

/// Gives a message to a table, which takes it as `summaries::deliver` says.
pub(crate) fn deliver<G: Allocator, A: Allocator + Copy, S: PathSet<A>>(
    table: &mut Table<'_, G, A, S>,
    due: Due,
) -> Result<(), Reason>
    requires { IsTable S.members table.old }
    ensures { TakesOrFails S.members due result table.old table.new }
{
    match summaries::deliver(table, due) {
        Ok(()) => Ok(()),
        Err(TableFault::Memory) => Err(Reason::OutOfMemory(OutOfMemory(()))),
        Err(TableFault::EdgeLimit) => Err(Reason::EdgeLimit),
    }
}

/// What the table of a worker that has ended found, as `summaries::read_off` says it.
pub fn read_off<G: Allocator, A: Allocator + Copy, S: PathSet<A>>(
    alloc: A,
    table: Table<'_, G, A, S>,
) -> Result<Summary<A>, OutOfMemory>
    ensures { IfOk result (IsReadOff table.entry.found) }
{
    match summaries::read_off(alloc, table) {
        Ok(summary) => Ok(summary),
        Err(_) => Err(OutOfMemory(())),
    }
}
