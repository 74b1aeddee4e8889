//! The messages that a table sends.

ghost use Rattle.std.specs.Prelude.{◌≡◌, ◌≤◌, ◌<◌, ◌^◌, ◌∷◌, [], ◌++◌, length, OnOk, OnErr, IfErr, IfOk};
ghost use Rattle.std.specs.Prelude.{IfSome, IfNone};
ghost use Rattle.std.specs.Bool.{OnTrue, OnFalse};
ghost use Rattle.language.specs.Lists.{Member, NoneTwice, NoneTwice-prop};

use crate::exits::Place;
use crate::long_list::append;
use std::alloc::{AllocError, Allocator};

/// A message sent, by the indexes of what its table holds.
#[derive(Clone, Copy)]
pub(crate) enum Outgoing {
    /// The entry of a call that stands at a site: the index of the call.
    EntryFor { call: u32 },
    /// The summary of a pair, for a caller: the place of the pair.
    SummaryFor { to: u8, at: Place },
}

/// The messages sent, each once, in order; the first of them are answered.
#[derive(Drop)]
pub(crate) struct Outbox<A: Allocator> {
    pub(crate) sent: Vec<Outgoing, A>,
    pub(crate) answered: usize,
    ghost within: { answered ≤ length sent.items },
    ghost few: { answered < 2 ^ 64 },
    ghost once: { NoneTwice sent.items } by { NoneTwice-prop sent.items },
}

/// An index as it is kept. One past what 32 bits hold counts as memory refused.
pub(crate) fn index_in_32_bits(at: usize) -> Result<u32, AllocError>
    ensures same { IfOk result (λ n. n ≡ at) }
    ensures past { IfErr result (λ _. 2 ^ 32 ≤ at) }
{
    if at > u32::MAX as usize {
        return Err(AllocError);
    }
    Ok(at as u32)
}

impl<A: Allocator + Copy> Outbox<A> {
    ghost use Rattle.summaries.specs.declared.outbox.Outgoing.TheVariants.{EntryFor};
    ghost use Rattle.summaries.specs.Mails.{answered_in};

    /// No message is sent.
    pub(crate) fn new(alloc: A) -> Self
        ensures { result.sent.items ≡ [] }
    {
        Outbox {
            sent: Vec::new(alloc),
            answered: 0,
        }
    }

    /// Sends a message that was not sent before. If memory is refused, nothing changes.
    pub(crate) fn send(&mut self, message: Outgoing) -> Result<(), AllocError>
        requires { ¬ Member message self.old.sent.items }
        ensures ok { OnOk result (self.new.sent.items ≡ self.old.sent.items ++ message ∷ []) }
        ensures err { OnErr result (self.new.sent.items ≡ self.old.sent.items) }
        ensures answered { self.new.answered ≡ self.old.answered }
    {
        append(&mut self.sent, message)?;
        Ok(())
    }

    /// Sends the entry of the call at an index, unless it is known. If memory is refused, nothing changes.
    pub(crate) fn send_entry(&mut self, known: bool, call: usize) -> Result<(), AllocError>
        requires { OnFalse known (¬ Member (EntryFor call) self.old.sent.items) }
        ensures known { OnOk result (OnTrue known (self.new.sent.items ≡ self.old.sent.items)) }
        ensures new { OnOk result (OnFalse known
            (self.new.sent.items ≡ self.old.sent.items ++ EntryFor call ∷ [])) }
        ensures err { OnErr result (self.new.sent.items ≡ self.old.sent.items) }
        ensures answered { self.new.answered ≡ self.old.answered }
    {
        if !known {
            let call = index_in_32_bits(call)?;
            self.send(Outgoing::EntryFor { call })?;
        }
        Ok(())
    }

    /// The first message that is not answered yet, which then is.
    pub(crate) fn next(&mut self) -> Option<Outgoing>
        ensures some { IfSome result (λ x. answered_in self.new ≡ answered_in self.old ++ x ∷ []) }
        ensures new { IfSome result (λ x. ¬ Member x (answered_in self.old)) }
        ensures none { IfNone result (answered_in self.old ≡ self.old.sent.items) }
        ensures same { IfNone result (self.new.answered ≡ self.old.answered) }
        ensures sent { self.new.sent.items ≡ self.old.sent.items }
    {
        let sent = self.sent.as_slice();
        if self.answered >= sent.len() {
            return None;
        }
        let message = sent[self.answered];
        self.answered += 1;
        Some(message)
    }
}
