//! What one sender posted to a mailbox, and what was taken of it.
ghost use Rattle.std.specs.Prelude.{◌≡◌, ◌∷◌, [], IfOk, MatchOption};
ghost use Rattle.post_ledger.specs.Sides.{on_side};

use crate::event::Event;
use std::alloc::{AllocError, Allocator};

/// A side of a mailbox: what was put in, or what was taken out.
#[derive(Clone, Copy)]
pub enum Side {
    Posts,
    Takes,
}

/// The message of the event, if it is one of this sender at this side.
fn message_of<M: Copy>(event: Event<M>, from: u8, side: Side) -> Option<M>
    ensures { MatchOption result (on_side side from (event ∷ []) ≡ [])
        (λ m. on_side side from (event ∷ []) ≡ m ∷ []) }
{
    match (side, event) {
        (Side::Posts, Event::Post { sender, message })
        | (Side::Takes, Event::Take { sender, message })
            if sender == from => { Some(message) }
        _ => None,
    }
}

/// The messages of one sender in a mailbox's history, in order: those that it posted, or those of it that were
/// taken. An error means that there is no memory for the list.
pub fn by_sender<M: Copy, A: Allocator>(
    alloc: A,
    history: &[Event<M>],
    sender: u8,
    side: Side,
) -> Result<Vec<M, A>, AllocError>
    ensures { IfOk result (λ v. v.items ≡ on_side side sender history.now) }
{
    let mut messages = Vec::new(alloc);
    for event in history {
        if let Some(message) = message_of(*event, sender, side) {
            messages.push(message)?;
        }
    }
    Ok(messages)
}
