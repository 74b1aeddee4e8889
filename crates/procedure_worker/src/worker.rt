//! What a worker does with what its last take answered.
ghost use Rattle.std.specs.Prelude.{◌≡◌, ◌⊎◌, IfOk, OnOk, MatchResult};
ghost use Rattle.std.specs.Option.{ForSome};
ghost use Rattle.post_ledger.specs.Orders.{HasJob};
ghost use Rattle.summaries.specs.Fitting.{FitsIn};
ghost use Rattle.switchboard.specs.declared.calls.Taken.TheVariants as answer;
ghost use Rattle.procedure_worker.specs.Works.{start_of, IsReady, IsTaking, IsDealing, IsSending};
ghost use Rattle.procedure_worker.specs.Works.{IsStopped, HasFound, Failed, Completes, TurnsOrEnds};
ghost use Rattle.procedure_worker.specs.Works.{StopsSo, took_by, DealsOrStops, HasAnswered, HasDealt};
ghost use Rattle.procedure_worker.specs.Works.{HasTurned};

use crate::desk::Desk;
use crate::gate::Gate;
use crate::memory::{deliver, next, post};
use crate::pause::pause;
use crate::stop::{Finish, Reason, Stop};
use flow_graph::Graphs;
use path_sets::PathSet;
use std::alloc::Allocator;
use std::sync::Wait;
use summaries::{Due, Table};
use switchboard::{Board, Job, Taken};
use ticket_lock::Spent;

/// A worker between two calls of its board.
#[derive(Drop)]
pub(crate) struct Worker<'g, P, G: Allocator, A: Allocator, S: PathSet<A>> {
    pub(crate) pass: P,
    pub(crate) table: Table<'g, G, A, S>,
    /// How many messages its pass took, and how many it posted, for the gate.
    pub(crate) taken: u64,
    pub(crate) posted: u64,
    /// How many looks in a row found its mailbox empty.
    pub(crate) empty: u32,
}

/// Aborts the board for this reason, with the job that the pass has, if it has one.
fn fail<R: Wait, G: Allocator, H: Allocator, B: Board<Due, Graphs<G>, H>, K>(
    desk: &Desk<'_, '_, R, G, B, K>,
    pass: &mut B::Pass,
    job: Option<Job>,
    why: Reason,
) -> Finish
    requires board { (B.sight pass.old).board ≡ B.identity desk.now.context.now.board.now }
    requires job { ForSome job
        (λ j. HasJob (B.sight pass.old).number j (B.sight pass.old).seen.order) }
    ensures { Failed FitsIn why result (B.sight pass.old) (B.sight pass.new) }
{
    desk.context
        .board
        .abort(desk.context.rt, pass, job, why.cause());
    Err(Some(why))
}

/// Completes the message of the job. Returns how the worker ended, if it did.
fn complete<R: Wait, G: Allocator, H: Allocator, B: Board<Due, Graphs<G>, H>, K>(
    desk: &Desk<'_, '_, R, G, B, K>,
    pass: &mut B::Pass,
    job: Job,
) -> Option<Finish>
    requires board { (B.sight pass.old).board ≡ B.identity desk.now.context.now.board.now }
    requires job { HasJob (B.sight pass.old).number job (B.sight pass.old).seen.order }
    ensures { Completes FitsIn job result (B.sight pass.old) (B.sight pass.new) }
{
    match desk.context.board.done(desk.context.rt, pass, job) {
        Ok(()) => None,
        Err((job, Spent)) => Some(fail(desk, pass, Some(job), Reason::Spent)),
    }
}

/// Completes the message of the job, and takes the next one. Returns what the take answers, or how the worker ended.
#[inline(always)]
fn turn<R: Wait, G: Allocator, H: Allocator, B: Board<Due, Graphs<G>, H>, K>(
    desk: &Desk<'_, '_, R, G, B, K>,
    pass: &mut B::Pass,
    job: Job,
) -> Result<Taken<Due>, Finish>
    requires board { (B.sight pass.old).board ≡ B.identity desk.now.context.now.board.now }
    requires job { HasJob (B.sight pass.old).number job (B.sight pass.old).seen.order }
    ensures { TurnsOrEnds FitsIn job result (B.sight pass.old) (B.sight pass.new) }
{
    match desk.context.board.turn(desk.context.rt, pass, job) {
        Ok(next) => Ok(next),
        Err((job, Spent)) => Err(fail(desk, pass, job, Reason::Spent)),
    }
}

/// Ends the work on a message, since it stops for this reason. The message of a board that another pass aborted is
/// completed.
fn give_up<R: Wait, G: Allocator, H: Allocator, B: Board<Due, Graphs<G>, H>, K>(
    desk: &Desk<'_, '_, R, G, B, K>,
    pass: &mut B::Pass,
    job: Job,
    why: Stop,
) -> Finish
    requires board { (B.sight pass.old).board ≡ B.identity desk.now.context.now.board.now }
    requires job { HasJob (B.sight pass.old).number job (B.sight pass.old).seen.order }
    ensures { StopsSo FitsIn job why result (B.sight pass.old) (B.sight pass.new) }
{
    match why {
        None => complete(desk, pass, job).unwrap_or(Err(None)),
        Some(why) => fail(desk, pass, Some(job), why),
    }
}

impl<'g, P, G: Allocator, A: Allocator, S: PathSet<A>> Worker<'g, P, G, A, S> {
    /// Posts a message that the table answered.
    fn send<R: Wait, H: Allocator, B: Board<Due, Graphs<G>, H, Pass = P>, K: Gate>(
        &mut self,
        desk: &Desk<'_, '_, R, G, B, K>,
        job: &Job,
        to: u8,
        due: Due,
    ) -> Result<(), Stop>
        requires { IsSending (start_of B.identity desk.now) S.members job.now to due
            (B.sight self.old.pass) self.old }
        ensures done { DealsOrStops (start_of B.identity desk.now) S.members job.now result
            (B.sight self.new.pass) self.new }
        ensures takes { OnOk result
            (took_by (B.sight self.new.pass) ≡ took_by (B.sight self.old.pass)) }
    {
        post(desk, &mut self.pass, job, to, due)?;
        self.posted = self.posted.wrapping_add(1);
        desk.context.gate.posted(desk.number, self.posted);
        Ok(())
    }
}

impl<'g, P, G: Allocator, A: Allocator + Copy, S: PathSet<A>> Worker<'g, P, G, A, S> {
    /// Posts the next message that the table owes. Returns whether there was one.
    fn answer<R: Wait, H: Allocator, B: Board<Due, Graphs<G>, H, Pass = P>, K: Gate>(
        &mut self,
        desk: &Desk<'_, '_, R, G, B, K>,
        job: &Job,
    ) -> Result<bool, Stop>
        requires { IsDealing (start_of B.identity desk.now) S.members job.now
            (B.sight self.old.pass) self.old }
        ensures { MatchResult result
            (λ more.
            HasAnswered (start_of B.identity desk.now) S.members job.now more
            (B.sight self.old.pass) (B.sight self.new.pass) self.new)
            (λ why.
            IsStopped (start_of B.identity desk.now) S.members job.now why
            (B.sight self.new.pass) self.new) }
    {
        match next(&mut self.table) {
            Ok(Some((to, due))) => {
                self.send(desk, job, to, due)?;
                Ok(true)
            }
            Ok(None) => Ok(false),
            Err(why) => Err(Some(why)),
        }
    }

    /// Posts all that the table owes, completes the message, and takes the next one. Returns what the take answers,
    /// or how the worker ended.
    #[inline(always)]
    fn post_all_owed<R: Wait, H: Allocator, B: Board<Due, Graphs<G>, H, Pass = P>, K: Gate>(
        &mut self,
        desk: &Desk<'_, '_, R, G, B, K>,
        job: Job,
    ) -> Result<Taken<Due>, Finish>
        requires { IsDealing (start_of B.identity desk.now) S.members job
            (B.sight self.old.pass) self.old }
        ensures { HasDealt (start_of B.identity desk.now) S.members job result
            (B.sight self.old.pass) (B.sight self.new.pass) self.new }
    {
        for _ in desk.context.rt.forever() {
            match self.answer(desk, &job) {
                Ok(true) => {}
                Ok(false) => return turn(desk, &mut self.pass, job),
                Err(why) => return Err(give_up(desk, &mut self.pass, job, why)),
            }
        }
        unreachable!()
    }

    /// The table takes a message, and all that it owes then is posted. Returns what the take of the next message
    /// answers, or how the worker ended.
    #[inline(always)]
    fn serve<R: Wait, H: Allocator, B: Board<Due, Graphs<G>, H, Pass = P>, K: Gate>(
        &mut self,
        desk: &Desk<'_, '_, R, G, B, K>,
        job: Job,
        due: Due,
    ) -> Result<Taken<Due>, Finish>
        requires { IsTaking (start_of B.identity desk.now) S.members job due
            (B.sight self.old.pass) self.old }
        ensures { HasDealt (start_of B.identity desk.now) S.members job result
            (B.sight self.old.pass) (B.sight self.new.pass) self.new }
    {
        self.taken = self.taken.wrapping_add(1);
        desk.context.gate.taken(desk.number, self.taken);
        match deliver(&mut self.table, due) {
            Ok(()) => self.post_all_owed(desk, job),
            Err(why) => Err(fail(desk, &mut self.pass, Some(job), why)),
        }
    }

    /// Takes a message, if there is one; if there is none, waits for a moment. Returns what the take answers, or how
    /// the worker ended.
    #[inline(never)]
    fn look<R: Wait, H: Allocator, B: Board<Due, Graphs<G>, H, Pass = P>, K: Gate>(
        &mut self,
        desk: &Desk<'_, '_, R, G, B, K>,
    ) -> Result<Taken<Due>, Finish>
        requires { IsReady (start_of B.identity desk.now) S.members
            (B.sight self.old.pass) self.old }
        ensures turned { HasTurned (start_of B.identity desk.now) S.members answer.Empty result
            (B.sight self.old.pass) (B.sight self.new.pass) self.new }
        ensures rested { IfOk result (λ taken. (taken ≡ answer.Empty) ⊎ (self.new.empty ≡ 0)) }
    {
        // Read before the take, so that `pause` sees a visit that the take came too early for.
        let visits = desk.context.board.visits(&self.pass);
        match desk.context.board.take(desk.context.rt, &mut self.pass) {
            Ok(Taken::Empty) => {
                // One of the visits since then was its own.
                pause(desk, &self.pass, visits.saturating_add(1), self.empty);
                self.empty = self.empty.saturating_add(1);
                Ok(Taken::Empty)
            }
            Ok(taken) => {
                self.empty = 0;
                Ok(taken)
            }
            Err(Spent) => Err(fail(desk, &mut self.pass, None, Reason::Spent)),
        }
    }

    /// Goes on from what the last take answered: works on the message, looks for one if there was none, or ends.
    /// Returns what the take answers that comes next, or how the worker ended: it continues only if it has completed
    /// the message that it was given, or was given none and saw neither the close nor an abort.
    #[inline(always)]
    pub(crate) fn step<R: Wait, H: Allocator, B: Board<Due, Graphs<G>, H, Pass = P>, K: Gate>(
        &mut self,
        desk: &Desk<'_, '_, R, G, B, K>,
        taken: Taken<Due>,
    ) -> Result<Taken<Due>, Finish>
        requires { HasFound (start_of B.identity desk.now) S.members taken
            (B.sight self.old.pass) self.old }
        ensures { HasTurned (start_of B.identity desk.now) S.members taken result
            (B.sight self.old.pass) (B.sight self.new.pass) self.new }
    {
        match taken {
            Taken::Message(job, due) => self.serve(desk, job, due),
            // At once even if a turn found none, since only a look knows the visits before it.
            Taken::Empty => self.look(desk),
            Taken::Closed => Err(Ok(())),
            Taken::Aborted => Err(Err(None)),
        }
    }
}
