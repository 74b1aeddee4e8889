//! The calls of a board.
ghost use Rattle.std.specs.Prelude.{◌≡◌, ℕ, ◌+◌, ◌^◌, ◌<◌, ◌≤◌, map, [], IfOk, MatchResult};
ghost use Rattle.std.specs.Option.{ForSome};
ghost use Rattle.atomic_table.specs.Seated.{TableId};
ghost use Rattle.post_ledger.specs.Orders.{HasJob};
ghost use Rattle.switchboard.specs.Sights.{Sight, Account, opened, fresh_sights, told_by};
ghost use Rattle.switchboard.specs.Promises.{WasSpent, WasPosted, WasRefused, Took, WasDone};
ghost use Rattle.switchboard.specs.Promises.{DidTurn, LeftTurn, MadeAbort, Learned, AreAll, Settles};

use crate::calls::{Cause, Job, PostFault, Taken};
use crate::mail::Mail;
use post_ledger::Ledger;
use std::alloc::{AllocError, Allocator};
use std::sync::Wait;
use ticket_lock::{MOST_TICKETS, Spent};

/// Mailboxes with a pass each, numbered alike: pass i alone takes from mailbox i, and is the sender of what it posts.
/// Every call takes effect at one order of the board's events, of which its pass has seen a prefix.
pub trait Board<M: Mail<W>, W, A: Allocator>: Sized {
    /// What a thread works with, one thread at a time.
    type Pass;

    /// What a pass had seen, to be told to another.
    type Told;

    ghost identity: { Self → TableId };

    ghost mailboxes: { Self → ℕ };

    ghost sight: { Self.Pass → Sight M W };

    ghost account: { Self.Told → Account M };

    /// A board of 1 to 64 mailboxes, with the opening post in one of them, and its passes in the order of their
    /// numbers.
    fn open(
        alloc: A,
        world: &W,
        boxes: u8,
        to: u8,
        first: M,
    ) -> Result<(Self, Vec<Self::Pass, A>), AllocError>
    where
        A: Clone,
        requires boxes { (to < boxes) × (boxes ≤ 64) }
        requires fits { M.fits world.now to first }
        ensures { IfOk result (λ r. (mailboxes r.0 ≡ boxes)
            × (map sight r.1.items
            ≡ fresh_sights (identity r.0) (2 ^ 56) (opened world.now boxes to first) 0 boxes)) }
    {
        Self::open_with_budget(alloc, world, boxes, to, first, MOST_TICKETS)
    }

    /// The same, if each pass has fewer calls: one fewer than `budget`, from 2 to 2^56.
    fn open_with_budget(
        alloc: A,
        world: &W,
        boxes: u8,
        to: u8,
        first: M,
        budget: u64,
    ) -> Result<(Self, Vec<Self::Pass, A>), AllocError>
    where
        A: Clone,
        requires boxes { (to < boxes) × (boxes ≤ 64) }
        requires budget { (2 ≤ budget) × (budget ≤ 2 ^ 56) }
        requires fits { M.fits world.now to first }
        ensures { IfOk result (λ r. (mailboxes r.0 ≡ boxes)
            × (map sight r.1.items
            ≡ fresh_sights (identity r.0) budget (opened world.now boxes to first) 0 boxes)) };

    /// Posts a message that fits the mailbox, under a job of the pass. A post that is refused hands its message back.
    fn post<R: Wait>(
        &self,
        rt: &R,
        pass: &mut Self::Pass,
        job: &Job,
        to: u8,
        message: M,
    ) -> Result<(), PostFault<M>>
        requires board { (sight pass.old).board ≡ identity self.now }
        requires job { HasJob (sight pass.old).number job.now (sight pass.old).seen.order }
        requires fits { (to < (sight pass.old).seen.boxes)
            × M.fits (sight pass.old).seen.world to message }
        ensures { MatchResult result
            (λ _. WasPosted M.fits job.now to message (sight pass.old) (sight pass.new))
            (λ f. WasRefused M.fits message f (sight pass.old) (sight pass.new)) };

    /// Takes the oldest message of the pass's mailbox, with a job; or says that the board is closed, or aborted, or the
    /// mailbox empty.
    fn take<R: Wait>(&self, rt: &R, pass: &mut Self::Pass) -> Result<Taken<M>, Spent>
        requires { (sight pass.old).board ≡ identity self.now }
        ensures { Took M.fits result (sight pass.old) (sight pass.new) };

    /// Records that the message of the job is dealt with, even after an abort.
    fn done<R: Wait>(&self, rt: &R, pass: &mut Self::Pass, job: Job) -> Result<(), (Job, Spent)>
        requires board { (sight pass.old).board ≡ identity self.now }
        requires job { HasJob (sight pass.old).number job (sight pass.old).seen.order }
        ensures { MatchResult result (λ _. WasDone M.fits job (sight pass.old) (sight pass.new))
            (λ e. (e.0 ≡ job) × WasSpent (sight pass.old) (sight pass.new)) };

    /// Like `done` and then `take`. If the calls are used up before the first, the job comes back; if before the
    /// second, it does not.
    fn turn<R: Wait>(
        &self,
        rt: &R,
        pass: &mut Self::Pass,
        job: Job,
    ) -> Result<Taken<M>, (Option<Job>, Spent)>
        requires board { (sight pass.old).board ≡ identity self.now }
        requires job { HasJob (sight pass.old).number job (sight pass.old).seen.order }
        ensures { MatchResult result
            (λ taken. DidTurn M.fits job taken (sight pass.old) (sight pass.new))
            (λ e. LeftTurn M.fits job e.0 (sight pass.old) (sight pass.new)) }
    {
        if let Err((job, Spent)) = self.done(rt, pass, job) {
            return Err((Some(job), Spent));
        }
        match self.take(rt, pass) {
            Ok(taken) => Ok(taken),
            Err(Spent) => Err((None, Spent)),
        }
    }

    /// How many visits of the pass's mailbox have begun, or fewer: a hint, by which a pass that waits sees that a
    /// take may find a message now. No contract says what it returns, and no promise rests on it.
    fn visits(&self, pass: &Self::Pass) -> u64
        requires { (sight pass.now).board ≡ identity self.now }
    {
        let _ = pass;
        0
    }

    /// Aborts the board, and spends the job without completing its message.
    fn abort<R: Wait>(&self, rt: &R, pass: &mut Self::Pass, job: Option<Job>, cause: Cause)
        requires board { (sight pass.old).board ≡ identity self.now }
        requires job { ForSome job
            (λ j. HasJob (sight pass.old).number j (sight pass.old).seen.order) }
        ensures { MadeAbort M.fits (record { by = (sight pass.old).number; cause = cause })
            (sight pass.old) (sight pass.new) };

    /// What the pass has seen, for another pass.
    fn tell(&self, pass: &mut Self::Pass) -> Self::Told
        requires { (sight pass.old).board ≡ identity self.now }
        ensures same { sight pass.new ≡ sight pass.old }
        ensures told { account result ≡ told_by (sight pass.old) };

    /// The pass has then seen what it had seen and what it was told.
    fn learn(&self, pass: &mut Self::Pass, told: Self::Told)
        requires { ((sight pass.old).board ≡ identity self.now)
            × ((account told).board ≡ identity self.now) }
        ensures { Learned M.fits (account told) (sight pass.old) (sight pass.new) };

    /// What is left of the board, which takes all its passes out of the list, in the order of their numbers. Takes no
    /// memory.
    fn into_ledger(self, passes: &mut Vec<Self::Pass, A>) -> Ledger<M, A>
        requires { AreAll (identity self) (mailboxes self) (map sight passes.old.items) }
        ensures empty { passes.new.items ≡ [] }
        ensures settles { Settles M.fits (mailboxes self) (map sight passes.old.items)
            result.histories.items result.closed };
}
