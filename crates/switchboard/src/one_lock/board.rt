//! The board behind one lock.
ghost use Rattle.std.specs.Prelude.{◌≡◌, ◌<◌, ◌≤◌, ◌^◌, map, IfOk, []};
ghost use Rattle.switchboard.specs.Sights.{opened, fresh_sights};
ghost use Rattle.switchboard.specs.Promises.{AreAll, Settles};

use crate::board::Board;
use crate::calls::{Cause, Job, PostFault, Taken};
use crate::mail::Mail;
use crate::one_lock::book::Book;
use crate::one_lock::lanes::Lanes;
use crate::one_lock::pass::{OnePass, OneTold};
use crate::world::Shown;
use post_ledger::Ledger;
use std::alloc::{AllocError, Allocator};
use std::mem;
use std::sync::Wait;
use ticket_lock::{Spent, TicketLock};

/// All mailboxes, the counts and the abort behind one ticket lock.
#[derive(Drop)]
pub struct OneLock<M: Mail<W>, W, A: Allocator> {
    lock: TicketLock<Book<M, W, A>, A>,
    /// For the empty list that is left in the place of the passes.
    heap: A,
}

impl<M: Mail<W>, W, A: Allocator> OnePass<M, W, A> {
    // How many calls it has left.
    fn calls(&self) -> u64
        ensures { result ≡ self.now.calls }
    {
        if self.kept {
            self.lane.left() - 1
        } else {
            self.lane.left()
        }
    }

    fn number(&self) -> u8
        ensures { result ≡ self.now.number }
    {
        self.lane.number() as u8
    }
}

impl<M: Mail<W>, W, A: Allocator> OneLock<M, W, A> {
    fn into_ledger(self, passes: &mut Vec<OnePass<M, W, A>, A>) -> Ledger<M, A>
        requires { AreAll self.lock.id self.lock.lanes passes.old.items }
        ensures empty { passes.new.items ≡ [] }
        ensures settles { Settles M.fits self.lock.lanes passes.old.items result.histories.items
            result.closed }
    {
        let OneLock { lock, heap } = self;
        let all = mem::replace(passes, Vec::new(heap));
        let book = lock.close(Lanes {
            passes: all.into_iter(),
        });
        book.into_ledger()
    }
}

impl<M: Mail<W>, W, A: Allocator> Board<M, W, A> for OneLock<M, W, A> {
    type Pass = OnePass<M, W, A>;

    type Told = OneTold<M, W, A>;

    ghost identity = { λ b. b.lock.id };

    ghost mailboxes = { λ b. b.lock.lanes };

    ghost sight = { λ p. p };

    ghost account = { λ t. t };

    fn open_with_budget(
        alloc: A,
        world: &W,
        boxes: u8,
        to: u8,
        first: M,
        budget: u64,
    ) -> Result<(Self, Vec<OnePass<M, W, A>, A>), AllocError>
    where
        A: Clone,
    {
        let book = Book::open(alloc.clone()?, world, boxes, to, first)?;
        let mut passes = Vec::with_capacity(alloc.clone()?, usize::from(boxes))?;
        let heap = alloc.clone()?;
        let Ok((lock, lanes)) = TicketLock::with_budget(alloc, book, boxes, budget) else {
            return Err(AllocError);
        };
        for lane in lanes {
            passes.push_reserved(OnePass {
                lane,
                world: Shown::of(world),
                boxes,
                kept: true,
            });
        }
        Ok((OneLock { lock, heap }, passes))
    }

    fn post<R: Wait>(
        &self,
        rt: &R,
        pass: &mut OnePass<M, W, A>,
        job: &Job,
        to: u8,
        message: M,
    ) -> Result<(), PostFault<M>> {
        if pass.calls() == 0 {
            return Err(PostFault::Spent(message));
        }
        let number = pass.number();
        let Ok(mut guard) = self.lock.enter(rt, &mut pass.lane) else {
            unreachable!()
        };
        let answer = guard.value().post(number, job, to, message);
        self.lock.leave(&mut pass.lane, guard);
        answer
    }

    fn take<R: Wait>(&self, rt: &R, pass: &mut OnePass<M, W, A>) -> Result<Taken<M>, Spent> {
        if pass.calls() == 0 {
            return Err(Spent);
        }
        let number = pass.number();
        let Ok(mut guard) = self.lock.enter(rt, &mut pass.lane) else {
            unreachable!()
        };
        let answer = guard.value().take(number);
        self.lock.leave(&mut pass.lane, guard);
        Ok(answer)
    }

    fn done<R: Wait>(
        &self,
        rt: &R,
        pass: &mut OnePass<M, W, A>,
        job: Job,
    ) -> Result<(), (Job, Spent)> {
        if pass.calls() == 0 {
            return Err((job, Spent));
        }
        let number = pass.number();
        let Ok(mut guard) = self.lock.enter(rt, &mut pass.lane) else {
            unreachable!()
        };
        guard.value().done(number, job);
        self.lock.leave(&mut pass.lane, guard);
        Ok(())
    }

    fn abort<R: Wait>(&self, rt: &R, pass: &mut OnePass<M, W, A>, job: Option<Job>, cause: Cause) {
        if let Some(job) = job {
            let Job { take: _ } = job;
        }
        if !pass.kept {
            return;
        }
        let number = pass.number();
        let Ok(mut guard) = self.lock.enter(rt, &mut pass.lane) else {
            unreachable!()
        };
        pass.kept = false;
        guard.value().abort(number, cause);
        self.lock.leave(&mut pass.lane, guard);
    }

    fn tell(&self, pass: &mut OnePass<M, W, A>) -> OneTold<M, W, A> {
        OneTold {
            note: self.lock.tell(&mut pass.lane),
        }
    }

    fn learn(&self, pass: &mut OnePass<M, W, A>, told: OneTold<M, W, A>) {
        let OneTold { note } = told;
        self.lock.learn(&mut pass.lane, note);
    }

    fn into_ledger(self, passes: &mut Vec<OnePass<M, W, A>, A>) -> Ledger<M, A>
        requires { AreAll self.lock.id self.lock.lanes (map (λ p. p) passes.old.items) }
        ensures empty { passes.new.items ≡ [] }
        ensures settles { Settles M.fits self.lock.lanes (map (λ p. p) passes.old.items)
            result.histories.items result.closed }
    {
        OneLock::into_ledger(self, passes)
    }
}
