//! The book of a board: all its mailboxes, and the order of their events. It knows of no thread.
ghost use Rattle.std.specs.Prelude.{◌≡◌, ℕ, ◌<◌, ◌≤◌, ◌++◌, ◌∷◌, [], ◌↔◌, List, Some, IsTrue};
ghost use Rattle.std.specs.Prelude.{IsSome};
ghost use Rattle.std.specs.Prelude.{length, slice_get, vec_len, vec_capacity, OnOk, IfOk, IfErr};
ghost use Rattle.post_ledger.specs.declared.entry.Entry.TheVariants.{Posted, Completed};
ghost use Rattle.post_ledger.specs.declared.event.Event.{Event};
ghost use Rattle.post_ledger.specs.Orders.{HasJob, IsClosed};
ghost use Rattle.switchboard.specs.Sights.{opened, abort_of};
ghost use Rattle.switchboard.specs.Books.{with_new_event, TakeAnswers, RefusesPost, AreParts};

use crate::calls::{Abort, Cause, Job, PostFault, Taken};
use crate::world::Shown;
use post_ledger::{Entry, Ledger, Mailbox};
use std::alloc::{AllocError, Allocator};
use std::marker::Model;

/// All mailboxes of a board, and the order of their events. Each call makes one event at most, in time that does not
/// grow with the order. Contracts see it as a `State`.
#[derive(Drop)]
pub struct Book<M, W, A: Allocator> {
    world: Shown<W>,
    mailboxes: Vec<Mailbox<M, A>, A>,
    /// The events so far, with spare room for a Take and a Done of each Post that lacks them.
    order: Vec<Entry<M>, A>,
    posted: usize,
    completed: usize,
    aborted: Option<Abort>,
}

impl<M, W, A: Allocator> Model for Book<M, W, A> {
    ghost use Rattle.std.specs.Prelude.{length, vec_capacity};
    ghost use Rattle.switchboard.specs.Sights.{BoardState};
    ghost use Rattle.switchboard.specs.Books.{IsBook};

    ghost Value = { BoardState M W };

    ghost view = { λ b. record {
      world = b.world.value;
      boxes = length b.mailboxes.items;
      order = b.order.items;
      aborted = b.aborted;
    } };

    ghost invariant = { λ b.
        IsBook b.mailboxes.items b.order.items (vec_capacity b.order) b.posted b.completed };
}

/// A given number of mailboxes without events.
fn empty_mailboxes<M: Copy, A: Allocator + Clone>(
    alloc: &A,
    boxes: u8,
) -> Result<Vec<Mailbox<M, A>, A>, AllocError>
    ensures { IfOk result (λ v. (length v.items ≡ boxes)
        × ((q : ℕ) (h : List (Event M)) → slice_get v.items q ≡ Some h → h ≡ [])) }
{
    let mut mailboxes = Vec::with_capacity(alloc.clone()?, usize::from(boxes))?;
    for number in 0..boxes {
        let _ = number;
        mailboxes.push_reserved(Mailbox::new(alloc.clone()?, alloc.clone()?));
    }
    Ok(mailboxes)
}

/// Appends a take to the order, and returns its message.
fn note_take<M: Copy, A: Allocator>(
    order: &mut Vec<Entry<M>, A>,
    by: u8,
    found: (u64, u8, M),
) -> Taken<M>
    requires { vec_len order.old < vec_capacity order.old }
    ensures answer { result ≡ Taken.Message found.0 found.2 }
    ensures order { order.new.items ≡ order.old.items ++ Entry.Taken by found.1 found.2 ∷ [] }
    ensures room { vec_capacity order.new ≡ vec_capacity order.old }
{
    let (take, sender, message) = found;
    order.push_reserved(Entry::Taken {
        of: by,
        sender,
        message,
    });
    Taken::Message(Job { take }, message)
}

impl<M: Copy, W, A: Allocator> Book<M, W, A> {
    /// A book of a given number of mailboxes, with the opening post in one of them.
    pub fn open(alloc: A, world: &W, boxes: u8, to: u8, first: M) -> Result<Self, AllocError>
    where
        A: Clone,
        requires { (to < boxes) × (boxes ≤ 64) }
        ensures { IfOk result (λ b. b ≡ opened world.now boxes to first) }
    {
        let mut mailboxes = empty_mailboxes(&alloc, boxes)?;
        let mut order = Vec::with_capacity(alloc, 3)?;
        let mailbox = &mut mailboxes[usize::from(to)];
        match mailbox.post(boxes, first) {
            Err(_) => Err(AllocError),
            Ok(()) => {
                order.push_reserved(Entry::Posted {
                    to,
                    sender: boxes,
                    message: first,
                    under: 0,
                });
                Ok(Book {
                    world: Shown::of(world),
                    mailboxes,
                    order,
                    posted: 1,
                    completed: 0,
                    aborted: None,
                })
            }
        }
    }

    /// Posts a message to a mailbox, under a job of the sender, and reserves the places of its Take and its Done. A
    /// post that is refused hands its message back.
    pub fn post(&mut self, by: u8, job: &Job, to: u8, message: M) -> Result<(), PostFault<M>>
        requires job { HasJob by job.now self.old.order }
        requires to { to < self.old.boxes }
        ensures ok { OnOk result ((self.old.aborted ≡ None)
            × (self.new ≡ with_new_event (Posted to by message job.now) self.old)) }
        ensures err { IfErr result (λ f. RefusesPost message f self.old self.new) }
    {
        if self.aborted.is_some() {
            return Err(PostFault::Aborted(message));
        }
        let owed = 3 * (self.posted + 1) - self.order.len();
        match self.order.reserve(owed) {
            Err(_) => return Err(PostFault::Memory(message)),
            Ok(()) => {}
        }
        let mailbox = &mut self.mailboxes[usize::from(to)];
        match mailbox.post(by, message) {
            Err(back) => Err(PostFault::Memory(back)),
            Ok(()) => {
                self.order.push_reserved(Entry::Posted {
                    to,
                    sender: by,
                    message,
                    under: job.take,
                });
                self.posted += 1;
                Ok(())
            }
        }
    }

    /// What a take of the pass returns. Takes no memory.
    pub fn take(&mut self, by: u8) -> Taken<M>
        requires { by < self.old.boxes }
        ensures { TakeAnswers by result self.old self.new }
    {
        if self.posted == self.completed {
            return Taken::Closed;
        }
        if self.aborted.is_some() {
            return Taken::Aborted;
        }
        let mailbox = &mut self.mailboxes[usize::from(by)];
        match mailbox.take_from() {
            None => Taken::Empty,
            Some(found) => note_take(&mut self.order, by, found),
        }
    }

    /// Records that the message of the job is dealt with. Takes no memory.
    pub fn done(&mut self, by: u8, job: Job)
        requires { HasJob by job self.old.order }
        ensures { self.new ≡ with_new_event (Completed by job) self.old }
    {
        let Job { take } = job;
        let mailbox = &mut self.mailboxes[usize::from(by)];
        mailbox.done(take);
        self.order.push_reserved(Entry::Completed { of: by, take });
        self.completed += 1;
    }

    /// Aborts the board, unless it was aborted before.
    pub fn abort(&mut self, by: u8, cause: Cause)
        ensures { self.new
            ≡ record self.old {
              aborted =
                  abort_of self.old.aborted (record { by = by; cause = cause });
            } }
    {
        if self.aborted.is_none() {
            self.aborted = Some(Abort { by, cause });
        }
    }

    /// The histories of all mailboxes, and whether all posts are taken and completed. Takes no memory.
    pub fn into_ledger(self) -> Ledger<M, A>
        ensures parts { AreParts result.histories.items self }
        ensures closed { IsTrue result.closed ↔ IsClosed self.order }
    {
        let closed = self.posted == self.completed;
        let Book {
            world: _,
            mailboxes,
            order: _,
            posted: _,
            completed: _,
            aborted: _,
        } = self;
        Ledger {
            histories: mailboxes,
            closed,
        }
    }
}
