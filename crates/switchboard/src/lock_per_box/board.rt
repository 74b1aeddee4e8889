//! The board with a lock for each mailbox.
ghost use Rattle.std.specs.Prelude.{◌≡◌, ◌<◌, ◌≤◌, map, [], MatchResult};
ghost use Rattle.std.specs.Prelude.{vec_len, vec_capacity, length, Contains};
ghost use Rattle.post_ledger.specs.History.{takes, dones};
ghost use Rattle.post_ledger.specs.Orders.{HasJob};
ghost use Rattle.switchboard.specs.Promises.{WasPosted, WasRefused, AreAll, Settles};
ghost use Rattle.switchboard.specs.PerBox.{IsBoardTable};
ghost use Rattle.switchboard.specs.BoxAnswers.{TookOut, Finished};

use crate::board::Board;
use crate::calls::{Cause, Job, PostFault, Taken};
use crate::lock_per_box::knowing::{Ground, Knowing};
use crate::lock_per_box::outstanding::{
    ABORTED, TellsSeen, count_down, count_up, look, raise, take_in,
};
use crate::lock_per_box::pass::{BoxPass, BoxTold};
use crate::lock_per_box::rule::Boxes;
use crate::lock_per_box::visiting::{enter_box, first_word, leave_box};
use crate::mail::Mail;
use crate::world::Shown;
use atomic_table::Table;
use post_ledger::{Ledger, Mailbox};
use std::alloc::{AllocError, Allocator};
use std::sync::Wait;
use ticket_lock::{Spent, value_at};

pub(crate) type BoxTable<M, W, A> = Table<
    Option<Mailbox<M, A>>,
    Knowing<M, W, Mailbox<M, A>>,
    Ground<M, W>,
    Boxes,
    A,
>;

/// Each mailbox behind a ticket lock of its own, and one word with the number of outstanding posts.
#[derive(Drop)]
pub struct LockPerBox<M: Mail<W>, W, A: Allocator> {
    pub(crate) table: BoxTable<M, W, A>,
    /// For the mailboxes, once the board is at its end.
    pub(crate) room: Vec<Mailbox<M, A>, A>,
    ghost sized: { IsBoardTable table.shared.table_id table.shared.key.boxes
        × (0 < table.shared.key.boxes) },
    ghost free: { (vec_len room ≡ 0) × (table.shared.key.boxes ≤ vec_capacity room) },
}

/// Takes the oldest message that is not taken, if there is one.
fn take_out<M: Copy, A: Allocator>(mailbox: &mut Mailbox<M, A>) -> Option<(Job, M)>
    ensures { TookOut result mailbox.old mailbox.new }
{
    let (take, _, message) = mailbox.take_from()?;
    Some((Job { take }, message))
}

/// Records that a take is completed, and then takes the oldest message that is not taken, if there is one and the
/// word found does not say that the board is aborted.
fn finish<M: Copy, A: Allocator>(
    mailbox: &mut Mailbox<M, A>,
    take: u64,
    found: u64,
) -> Option<(Job, M)>
    requires taken { take < length (takes mailbox.old) }
    requires open { Contains (dones mailbox.old) take → ⊥ }
    ensures { Finished take found result mailbox.old mailbox.new }
{
    mailbox.done(take);
    if found >= ABORTED {
        return None;
    }
    take_out(mailbox)
}

impl<M: Mail<W>, W, A: Allocator> LockPerBox<M, W, A> {
    /// Like `post`; if it returns `Ok`, it has called `held` once while it held the lock of mailbox `to`, and
    /// otherwise never.
    pub fn post_held<R: Wait, F: Fn()>(
        &self,
        rt: &R,
        pass: &mut BoxPass<M, W, A>,
        job: &Job,
        to: u8,
        message: M,
        held: &F,
    ) -> Result<(), PostFault<M>>
        requires callable { F.IsAlwaysCallable held.now }
        requires board { pass.old.board ≡ self.now.table.shared.table_id }
        requires job { HasJob pass.old.number job.now pass.old.seen.order }
        requires fits { (to < pass.old.seen.boxes) × M.fits pass.old.seen.world to message }
        ensures { MatchResult result (λ _. WasPosted M.fits job.now to message pass.old pass.new)
            (λ f. WasRefused M.fits message f pass.old pass.new) }
    {
        if pass.left == 0 {
            return Err(PostFault::Spent(message));
        }
        pass.left -= 1;
        let shared = &self.table.shared;
        let seat = &mut pass.seat;
        // Before the visit, so that the lock is held for less.
        if count_up(shared, seat, job) >= ABORTED {
            count_down(shared, seat);
            return Err(PostFault::Aborted(message));
        }
        enter_box(rt, shared, seat, to);
        if let Err(back) = value_at(seat, shared, usize::from(to)).post(pass.number, message) {
            leave_box(shared, seat, to);
            count_down(shared, seat);
            return Err(PostFault::Memory(back));
        }
        held();
        leave_box(shared, seat, to);
        Ok(())
    }
}

impl<M: Mail<W>, W, A: Allocator> Board<M, W, A> for LockPerBox<M, W, A> {
    type Pass = BoxPass<M, W, A>;

    type Told = BoxTold<M, W, A>;

    ghost identity = { λ b. b.table.shared.table_id };

    ghost mailboxes = { λ b. b.table.shared.key.boxes };

    ghost sight = { λ p. p };

    ghost account = { λ t. t };

    fn open_with_budget(
        alloc: A,
        world: &W,
        boxes: u8,
        to: u8,
        first: M,
        budget: u64,
    ) -> Result<(Self, Vec<BoxPass<M, W, A>, A>), AllocError>
    where
        A: Clone,
    {
        let about = Ground {
            world: Shown::of(world),
            boxes,
            to,
            first,
        };
        LockPerBox::of(alloc, world, about, budget)
    }

    fn post<R: Wait>(
        &self,
        rt: &R,
        pass: &mut BoxPass<M, W, A>,
        job: &Job,
        to: u8,
        message: M,
    ) -> Result<(), PostFault<M>> {
        self.post_held(rt, pass, job, to, message, &|| {})
    }

    fn take<R: Wait>(&self, rt: &R, pass: &mut BoxPass<M, W, A>) -> Result<Taken<M>, Spent> {
        if pass.left == 0 {
            return Err(Spent);
        }
        pass.left -= 1;
        let shared = &self.table.shared;
        let found = look(shared, &mut pass.seat);
        if found % ABORTED == 0 {
            return Ok(Taken::Closed);
        }
        if found >= ABORTED {
            return Ok(Taken::Aborted);
        }
        enter_box(rt, shared, &mut pass.seat, pass.number);
        let next = take_out(value_at(&mut pass.seat, shared, usize::from(pass.number)));
        leave_box(shared, &mut pass.seat, pass.number);
        let Some((job, message)) = next else {
            return Ok(Taken::Empty);
        };
        Ok(Taken::Message(job, message))
    }

    fn done<R: Wait>(
        &self,
        rt: &R,
        pass: &mut BoxPass<M, W, A>,
        job: Job,
    ) -> Result<(), (Job, Spent)> {
        if pass.left == 0 {
            return Err((job, Spent));
        }
        pass.left -= 1;
        let Job { take } = job;
        let shared = &self.table.shared;
        enter_box(rt, shared, &mut pass.seat, pass.number);
        value_at(&mut pass.seat, shared, usize::from(pass.number)).done(take);
        leave_box(shared, &mut pass.seat, pass.number);
        count_down(shared, &mut pass.seat);
        Ok(())
    }

    #[inline(always)]
    fn turn<R: Wait>(
        &self,
        rt: &R,
        pass: &mut BoxPass<M, W, A>,
        job: Job,
    ) -> Result<Taken<M>, (Option<Job>, Spent)> {
        if pass.left < 2 {
            return match self.done(rt, pass, job) {
                Ok(()) => Err((None, Spent)),
                Err((job, Spent)) => Err((Some(job), Spent)),
            };
        }
        pass.left -= 1;
        let Job { take } = job;
        let shared = &self.table.shared;
        let seat = &mut pass.seat;
        let found = look(shared, seat);
        enter_box(rt, shared, seat, pass.number);
        let mailbox = value_at(seat, shared, usize::from(pass.number));
        let next = finish(mailbox, take, found);
        leave_box(shared, seat, pass.number);
        count_down(shared, seat);
        match next {
            Some((job, message)) => {
                // The visit was that of a Done and of a Take.
                pass.left -= 1;
                Ok(Taken::Message(job, message))
            }
            None => match self.take(rt, pass) {
                Ok(taken) => Ok(taken),
                Err(Spent) => Err((None, Spent)),
            },
        }
    }

    fn visits(&self, pass: &BoxPass<M, W, A>) -> u64 {
        self.table.shared.peek(first_word(pass.number) + 1)
    }

    fn abort<R: Wait>(&self, rt: &R, pass: &mut BoxPass<M, W, A>, job: Option<Job>, cause: Cause) {
        let _ = rt;
        if let Some(job) = job {
            let Job { take: _ } = job;
        }
        if pass.made {
            return;
        }
        pass.made = true;
        raise(&self.table.shared, &mut pass.seat, pass.number, cause);
    }

    fn tell(&self, pass: &mut BoxPass<M, W, A>) -> BoxTold<M, W, A> {
        BoxTold {
            seat: self.table.shared.split_seat::<TellsSeen>(&mut pass.seat),
        }
    }

    fn learn(&self, pass: &mut BoxPass<M, W, A>, told: BoxTold<M, W, A>) {
        let BoxTold { seat } = told;
        take_in(&self.table.shared, &mut pass.seat, seat);
    }

    fn into_ledger(self, passes: &mut Vec<BoxPass<M, W, A>, A>) -> Ledger<M, A>
        requires { AreAll self.table.shared.table_id self.table.shared.key.boxes
            (map (λ p. p) passes.old.items) }
        ensures empty { passes.new.items ≡ [] }
        ensures settles { Settles M.fits self.table.shared.key.boxes (map (λ p. p) passes.old.items)
            result.histories.items result.closed }
    {
        LockPerBox::into_ledger(self, passes)
    }
}
