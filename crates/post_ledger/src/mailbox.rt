//! The mailbox.
ghost use Rattle.std.specs.Prelude.{◌≡◌, ◌<◌, ◌++◌, ◌∷◌, ◌↔◌, [], length, slice_get};
ghost use Rattle.std.specs.Prelude.{Contains};
ghost use Rattle.std.specs.Prelude.{OnOk, IfErr, IfSome, IfNone, IsNone};
ghost use Rattle.std.specs.Iterator.{YieldsFirst, item_count};
ghost use Rattle.post_ledger.specs.History.{posts, takes, dones, IsLegal, TakesOldest};
ghost use Rattle.post_ledger.specs.Kept.{numbered_of};

use crate::event::Event;
use crate::number::Number;
use std::alloc::Allocator;
use std::marker::Model;

/// What an event is.
#[derive(Clone, Copy)]
pub(crate) enum Kind {
    Post,
    Take,
    Done,
}

/// An event without its message, and beside it a sender in a byte that padding would take otherwise: step n has the event
/// of number n and the sender of the message of number n. There are never fewer steps than messages, since each Post is an
/// event. So senders need no vector of their own, which would have to be given an allocator.
#[derive(Clone, Copy)]
pub(crate) struct Step {
    /// The number of a Post if the event is one or took one, and of a Take if it completed one, both counted from 0.
    number: Number,
    kind: Kind,
    /// 0 until there is a message of the step's number.
    sender: u8,
}

impl Step {
    fn new(kind: Kind, number: u32) -> Step
        ensures { numbered_of result ≡ (kind, number) }
    {
        Step {
            number: Number::new(number),
            kind,
            sender: 0,
        }
    }
}

/// A mailbox: messages are taken in the order in which they were posted, and nothing is ever forgotten. It keeps each
/// message once. In clauses it is its history.
#[derive(Drop)]
pub struct Mailbox<M, A: Allocator> {
    /// The messages of the Posts so far. Their senders are in the steps.
    messages: Vec<M, A>,
    /// The events so far, with spare room for a Take and a Done of each Post that lacks them.
    steps: Vec<Step, A>,
    /// How many Takes there are: the next one takes the Post with this number.
    taken: usize,
    /// How many Takes are not completed.
    open: usize,
}

impl<M, A: Allocator> Model for Mailbox<M, A> {
    ghost use Rattle.std.specs.Prelude.{List};
    ghost use Rattle.post_ledger.specs.declared.event.Event.{Event};

    ghost Value = { List (Event M) };

    ghost use Rattle.post_ledger.specs.Kept.{IsKept, history_of};

    ghost view = { λ m. history_of m.messages.items m.steps.items };

    ghost invariant = { IsKept };
}

impl<M: Copy, A: Allocator> Mailbox<M, A> {
    /// A mailbox with no events, with an allocator for its messages and one for its events. Takes no memory.
    pub fn new(messages: A, events: A) -> Self
        ensures { result ≡ [] }
    {
        Mailbox {
            messages: Vec::new(messages),
            steps: Vec::new(events),
            taken: 0,
            open: 0,
        }
    }

    /// Posts a message of a sender, and reserves the places of its Take and its Done. If memory for that is
    /// refused, or 2^32 messages were posted, the message comes back.
    #[tactic(auto, using(crate::proofs::Keeping::enough_steps))]
    pub fn post(&mut self, sender: u8, message: M) -> Result<(), M>
        ensures ok { OnOk result (self.new ≡ self.old ++ Event.Post sender message ∷ []) }
        ensures err { IfErr result (λ back. (back ≡ message) × (self.new ≡ self.old)) }
    {
        let post = self.messages.len();
        let Ok(number) = u32::try_from(post) else {
            return Err(message);
        };
        let untaken = post - self.taken;
        let owed = untaken + untaken + self.open;
        if let Err(_) = self.messages.reserve(1) {
            return Err(message);
        }
        if let Err(_) = self.steps.reserve(owed + 3) {
            return Err(message);
        }
        self.messages.push_reserved(message);
        self.steps.push_reserved(Step::new(Kind::Post, number));
        self.steps[post].sender = sender;
        Ok(())
    }

    /// Takes the oldest message that is not taken, with the number of its Take: `None` if and only if every
    /// Post is taken, and then nothing changes. Takes no memory.
    pub fn take(&mut self) -> Option<(u64, M)>
        ensures none { IsNone result ↔ (length (posts self.old) ≡ length (takes self.old)) }
        ensures unchanged { IfNone result (self.new ≡ self.old) }
        ensures some { IfSome result
            (λ t. (t.0 ≡ length (takes self.old)) × TakesOldest self.old self.new t.1) }
    {
        match self.take_from() {
            None => None,
            Some((number, _, message)) => Some((number, message)),
        }
    }

    /// The same, with the number of the message's sender before the message.
    pub fn take_from(&mut self) -> Option<(u64, u8, M)>
        ensures none { IsNone result ↔ (length (posts self.old) ≡ length (takes self.old)) }
        ensures unchanged { IfNone result (self.new ≡ self.old) }
        ensures some { IfSome result (λ t. (t.0 ≡ length (takes self.old))
            × (slice_get (posts self.old) (length (takes self.old)) ≡ Some (t.1, t.2))
            × (self.new ≡ self.old ++ Event.Take t.1 t.2 ∷ [])) }
    {
        if self.taken >= self.messages.len() {
            return None;
        }
        let number = self.taken as u32;
        let (sender, message) = self.posted(number);
        self.steps.push_reserved(Step::new(Kind::Take, number));
        self.taken += 1;
        self.open += 1;
        Some((u64::from(number), sender, message))
    }

    /// Records that the take of this number is completed. Takes no memory.
    pub fn done(&mut self, take: u64)
        requires taken { take < length (takes self.old) }
        requires open { Contains (dones self.old) take → ⊥ }
        ensures { self.new ≡ self.old ++ Event.Done take ∷ [] }
    {
        self.steps.push_reserved(Step::new(Kind::Done, take as u32));
        self.open -= 1;
    }

    /// The sender and the message of the Post with this number.
    #[tactic(auto, using(crate::proofs::Keeping::enough_steps))]
    fn posted(&self, number: u32) -> (u8, M)
        requires { number < length (posts self.now) }
        ensures { slice_get (posts self.now) number ≡ Some result }
    {
        let number = number as usize;
        (self.steps[number].sender, self.messages[number])
    }

    /// How many messages were taken.
    pub fn taken(&self) -> usize
        ensures { result ≡ length (takes self.now) }
    {
        self.taken
    }

    /// How many events there are.
    pub fn len(&self) -> usize
        ensures { result ≡ length self.now }
    {
        self.steps.len()
    }

    /// The event with this number, counted from 0, the oldest first.
    pub fn event(&self, number: usize) -> Option<Event<M>>
        ensures { result ≡ slice_get self.now number }
    {
        let step = *self.steps.get(number)?;
        let of = step.number.get();
        let event = match step.kind {
            Kind::Post => {
                let (sender, message) = self.posted(of);
                Event::Post { sender, message }
            }
            Kind::Take => {
                let (sender, message) = self.posted(of);
                Event::Take { sender, message }
            }
            Kind::Done => Event::Done {
                take: u64::from(of),
            },
        };
        Some(event)
    }

    /// The events so far, the oldest first. Takes no memory.
    pub fn history(&self) -> History<'_, M, A>
        ensures all { result ≡ self.now }
        ensures legal { IsLegal self.now }
    {
        // What the mailbox keeps of its fields is known where one of them is used.
        let _ = &self.steps;
        History {
            mailbox: self,
            read: 0,
        }
    }
}

/// The events of a mailbox that were not read yet, the oldest first. In clauses it is their list.
#[derive(Drop)]
pub struct History<'a, M, A: Allocator> {
    mailbox: &'a Mailbox<M, A>,
    /// How many events were read.
    read: usize,
}

impl<'a, M, A: Allocator> Model for History<'a, M, A> {
    ghost use Rattle.std.specs.Prelude.{List, drop};
    ghost use Rattle.post_ledger.specs.declared.event.Event.{Event};

    ghost Value = { List (Event M) };

    ghost view = { λ h. drop h.read h.mailbox.now };
}

impl<'a, M: Copy, A: Allocator> Iterator for History<'a, M, A> {
    type Item = Event<M>;

    ghost next_gives = { YieldsFirst (λ h. h) };

    ghost remaining = { item_count (λ h. h) };

    fn next(&mut self) -> Option<Event<M>> {
        if self.read >= self.mailbox.len() {
            return None;
        }
        let event = self.mailbox.event(self.read);
        self.read += 1;
        event
    }
}
