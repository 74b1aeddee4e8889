//! What a thread holds of a lock: its lane, and the tickets, guards and notes that the lane gets.
ghost use Rattle.std.specs.Prelude.{◌≡◌, ◌<◌};

use crate::alone::LoneSeat;
use std::marker::Model;

/// One of the lanes of a lock, for one thread at a time. Contracts see it as a `Standing`.
pub struct Lane<T> {
    pub(crate) seat: LoneSeat<T>,
    pub(crate) number: u64,
    pub(crate) left: u64,
}

impl<T> Model for Lane<T> {
    ghost use Rattle.ticket_lock.specs.Lanes.{Standing, standing, IsLane};

    ghost Value = { Standing T };

    ghost view = { λ l. standing l.seat.table_id l.number l.left l.seat.me.0 };

    ghost invariant = { λ l. IsLane l.seat.table_id l.number l.left l.seat.me };
}

impl<T> Drop for Lane<T> {
    fn drop(self) {
        let Lane {
            seat,
            number: _,
            left: _,
        } = self;
        drop(seat);
    }
}

impl<T> Lane<T> {
    ghost use Rattle.std.specs.Prelude.{◌≡◌};
    ghost use Rattle.ticket_lock.specs.Lanes.{standing, IsLane};

    pub(crate) fn into_seat(self) -> LoneSeat<T>
        ensures { IsLane result.table_id self.number self.left result.me
            × (standing result.table_id self.number self.left result.me.0 ≡ self) }
    {
        let Lane {
            seat,
            number: _,
            left: _,
        } = self;
        seat
    }

    /// The lane's number, from 0 on.
    pub fn number(&self) -> u64
        ensures { result ≡ self.now.number }
    {
        self.number
    }

    /// How many tickets the lane may still draw.
    pub fn left(&self) -> u64
        ensures { result ≡ self.now.left }
    {
        self.left
    }
}

/// A ticket that waits for its turn. It must be looked at until it is served. Contracts see it as its number.
pub struct Ticket {
    pub(crate) number: u64,
}

impl Model for Ticket {
    ghost use Rattle.std.specs.Prelude.{ℕ};

    ghost Value = { ℕ };

    ghost view = { λ t. t.number };
}

impl Ticket {
    /// The ticket's number. Tickets are numbered from 0, over all lanes.
    pub fn number(&self) -> u64
        ensures { result ≡ self.now }
    {
        self.number
    }
}

/// The value of the lock, for the lane that is inside. It must be left. Contracts see it as a `Held`.
pub struct Guard<T> {
    pub(crate) value: T,
    pub(crate) number: u64,
}

impl<T> Model for Guard<T> {
    ghost use Rattle.ticket_lock.specs.Lanes.{Held};

    ghost Value = { Held T };

    ghost view = { λ g. record { value = g.value; number = g.number } };
}

impl<T> Guard<T> {
    ghost use Rattle.std.specs.Prelude.{◌≡◌};
    ghost use Rattle.std.specs.Borrow.{Lends, sem};
    ghost use Rattle.ticket_lock.specs.contracts.lane.Guard.{the_row};

    /// The value, to be read or changed in place.
    pub fn value(&mut self) -> &mut T
        ensures* writes_back { sem 𝓛 (Lends (the_row T.row) T.row self.entry result
            (λ w. record self.old { value = w })) }
        ensures value { result.now ≡ self.old.value }
    {
        &mut self.value
    }
}

/// What a lane had seen, to be told to another. Contracts see it as a `Told`.
pub struct Note<T> {
    pub(crate) seat: LoneSeat<T>,
}

impl<T> Model for Note<T> {
    ghost use Rattle.ticket_lock.specs.Lanes.{Told, IsNote};

    ghost Value = { Told T };

    ghost view = { λ n. record { lock = n.seat.table_id; seen = n.seat.me.0.hand.seen } };

    ghost invariant = { λ n. IsNote n.seat.table_id n.seat.me };
}

impl<T> Note<T> {
    ghost use Rattle.std.specs.Prelude.{◌≡◌, []};
    ghost use Rattle.ticket_lock.specs.Lone.{new_view};
    ghost use Rattle.ticket_lock.specs.Lanes.{IsLockTable};

    pub(crate) fn into_seat(self) -> LoneSeat<T>
        ensures { (result.table_id ≡ self.lock) × IsLockTable self.lock
            × (result.me ≡ (new_view self.seen [], [])) }
    {
        let Note { seat } = self;
        seat
    }
}

impl<T> Drop for Note<T> {
    fn drop(self) {
        let Note { seat } = self;
        drop(seat);
    }
}

/// A lane has drawn all its tickets.
#[derive(Clone, Copy)]
pub struct Spent;
