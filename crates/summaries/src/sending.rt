//! The summaries that a table sends to callers.

ghost use Rattle.language.specs.Lists.{Member, NoneTwice};
ghost use Rattle.summaries.specs.declared.outbox.Outgoing.{Outgoing};
ghost use Rattle.summaries.specs.Grows.{SendsAll, OfSome, IsTold, IsToldOf};

use crate::due::Caller;
use crate::exits::{Exits, Place};
use crate::outbox::{Outbox, Outgoing};
use language::Word;
use std::alloc::{AllocError, Allocator};

/// Sends the summary of the pair at a place to a caller that does not have it; the starter gets none.
pub(crate) fn send_summary<A: Allocator + Copy>(
    outbox: &mut Outbox<A>,
    at: Place,
    caller: Caller,
) -> Result<(), AllocError>
    requires { (x : Outgoing) → IsTold at caller x → ¬ Member x outbox.old.sent.items }
    ensures { SendsAll (IsTold at caller) result outbox.old outbox.new }
{
    if let Caller::Proc(to) = caller {
        outbox.send(Outgoing::SummaryFor { to, at })?;
    }
    Ok(())
}

/// Sends the summary of the pair at a place to each of its callers except the starter, none of which has it. After an
/// error some have it.
pub(crate) fn send_summary_to_all<A: Allocator + Copy>(
    outbox: &mut Outbox<A>,
    at: Place,
    callers: &[Caller],
) -> Result<(), AllocError>
    requires once { NoneTwice callers.now }
    requires new { (x : Outgoing) → OfSome (IsTold at) callers.now x
        → ¬ Member x outbox.old.sent.items }
    ensures { SendsAll (OfSome (IsTold at) callers.now) result outbox.old outbox.new }
{
    for caller in callers {
        send_summary(outbox, at, *caller)?;
    }
    Ok(())
}

/// Sends a caller the summaries of the pairs of an entry, of which the caller has none; the starter gets none. After an
/// error it has some.
pub(crate) fn send_summaries<A: Allocator + Copy>(
    outbox: &mut Outbox<A>,
    exits: &Exits<A>,
    entry: Word,
    caller: Caller,
) -> Result<(), AllocError>
    requires { (x : Outgoing) → IsToldOf exits.now entry caller x
        → ¬ Member x outbox.old.sent.items }
    ensures { SendsAll (IsToldOf exits.now entry caller) result outbox.old outbox.new }
{
    let mut link = exits.last_of(entry);
    'pairs: while link > 0 {
        let at = link - 1;
        send_summary(outbox, at, caller)?;
        (_, link) = exits.left_at(at);
    }
    Ok(())
}
