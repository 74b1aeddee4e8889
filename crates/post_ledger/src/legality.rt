//! Whether a list of events is a history that a mailbox can have.
ghost use Rattle.std.specs.Prelude.{◌≡◌, ◌↔◌, ◌<◌, ◌+◌, ◌-◌, ◌^◌, ◌∷◌, [], ℕ, IsTrue, true, length};
ghost use Rattle.std.specs.Prelude.{nat_eq, slice_get};
ghost use Rattle.std.specs.List.{list_any};
ghost use Rattle.post_ledger.specs.History.{posts, takes, dones, MayFollow, IsLegal};

use crate::event::Event;

/// The sender and message of the Post with this number, counted from 0.
fn post_numbered<M: Copy>(events: &[Event<M>], number: usize) -> Option<(u8, M)>
    ensures { result ≡ slice_get (posts events.now) number }
{
    let mut left = number;
    for event in events {
        if let Event::Post { sender, message } = *event {
            if left == 0 {
                return Some((sender, message));
            }
            left -= 1;
        }
    }
    None
}

/// Whether a Done names this take.
fn names_done<M: Copy>(events: &[Event<M>], number: u64) -> bool
    ensures { result ≡ list_any (nat_eq number) (dones events.now) }
{
    for event in events {
        if let Event::Done { take } = *event {
            if number == take {
                return true;
            }
        }
    }
    false
}

/// Whether the event may follow the events before it, which have this many Takes.
fn may_follow<M: Copy + Eq>(before: &[Event<M>], taken: usize, event: Event<M>) -> bool
    requires exact { (a b : M) → M.eq a b ≡ true → a ≡ b }
    requires counted { length (takes before.now) ≡ taken }
    ensures { IsTrue result ↔ MayFollow before.now event }
{
    match event {
        Event::Post { .. } => true,
        Event::Take { sender, message } => match post_numbered(before, taken) {
            Some((from, posted)) => from == sender && posted == message,
            None => false,
        },
        Event::Done { take } => {
            let completed = names_done(before, take);
            take < taken as u64 && !completed
        }
    }
}

/// How many Takes there are with this event after `taken`.
fn with_take<M: Copy>(taken: usize, event: Event<M>) -> usize
    requires { taken < 2 ^ 64 - 1 }
    ensures { result ≡ taken + length (takes (event ∷ [])) }
{
    match event {
        Event::Take { .. } => taken + 1,
        Event::Post { .. } | Event::Done { .. } => taken,
    }
}

/// Whether the events are a legal history: each Take has the sender and message of the Post with its number,
/// which comes before it, and each Done names a Take before it that no Done before names. Takes no memory;
/// its time grows with the square of the length.
pub fn legal<M: Copy + Eq>(history: &[Event<M>]) -> bool
    requires { (a b : M) → M.eq a b ≡ true → a ≡ b }
    ensures { IsTrue result ↔ IsLegal history.now }
{
    let mut taken: usize = 0;
    for (i, event) in history.iter().enumerate() {
        if !may_follow(&history[..i], taken, *event) {
            return false;
        }
        taken = with_take(taken, *event);
    }
    true
}
