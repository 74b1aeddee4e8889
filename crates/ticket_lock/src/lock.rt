//! The lock, and what a lane does with it.
ghost use Rattle.std.specs.Prelude.{◌≡◌, ◌<◌, [], ◌∷◌, MatchResult};
ghost use Rattle.ticket_lock.specs.Count.{times};
ghost use Rattle.ticket_lock.specs.Lanes.{IsLockTable};
ghost use Rattle.ticket_lock.specs.Promises.{Drew, LaneWasSpent, CameBack, Served, EnteredLock};
ghost use Rattle.ticket_lock.specs.Promises.{MayLeave, Left, LearnedNote};

use crate::alone::{LoneTable, Merges, TakesIn, Tells};
use crate::lane::{Guard, Lane, Note, Spent, Ticket};
use crate::law::LaneLaw;
use crate::place::{draw_at, enter_at, leave_at, look_at};
use std::alloc::Allocator;
use std::marker::Model;
use std::sync::Wait;

/// A value that one lane at a time may change, in the order of the tickets drawn. Contracts see it as a `Lock`.
#[derive(Drop)]
pub struct TicketLock<T: LaneLaw, A: Allocator> {
    pub(crate) board: LoneTable<T, A>,
}

impl<T: LaneLaw, A: Allocator> Model for TicketLock<T, A> {
    ghost use Rattle.ticket_lock.specs.Lanes.{Lock, IsLockTable};

    ghost Value = { Lock T };

    ghost view = { λ l. record {
      id = l.board.shared.table_id;
      opening = l.board.shared.key.value.value;
      lanes = l.board.shared.key.lanes;
    } };

    ghost invariant = { λ l. IsLockTable l.board.shared.table_id };
}

impl<T: LaneLaw, A: Allocator> TicketLock<T, A> {
    pub(crate) fn into_board(self) -> LoneTable<T, A>
        ensures { IsLockTable result.shared.table_id × (result.shared.table_id ≡ self.id)
            × (result.shared.key.value.value ≡ self.opening)
            × (result.shared.key.lanes ≡ self.lanes) }
    {
        let TicketLock { board } = self;
        board
    }

    /// Draws the next ticket: one fetch_add. `Spent` is returned if and only if the lane has drawn all its tickets,
    /// and changes nothing. The lane must be one of this lock.
    pub fn draw(&self, lane: &mut Lane<T>) -> Result<Ticket, Spent>
        requires { lane.old.lock ≡ self.now.id }
        ensures { MatchResult result (λ t. Drew t lane.old lane.new)
            (λ _. LaneWasSpent lane.old lane.new) }
    {
        if lane.left == 0 {
            return Err(Spent);
        }
        let number = draw_at(&self.board.shared, &mut lane.seat, 0, 0);
        lane.left -= 1;
        Ok(Ticket { number })
    }

    /// Looks whether it is the ticket's turn: one load, and one exchange if it is. Then the lane is inside, and has
    /// the guard. If it is not, the ticket comes back, and nothing changes. The lane must be one of this lock, and
    /// the ticket one of the lane's.
    pub fn look(&self, lane: &mut Lane<T>, ticket: Ticket) -> Result<Guard<T>, Ticket>
        requires lock { lane.old.lock ≡ self.now.id }
        requires held { 0 < times ticket lane.old.tickets }
        ensures { MatchResult result (λ g. Served T.before T.part ticket g lane.old lane.new)
            (λ t. CameBack ticket t lane.old lane.new) }
    {
        let Ticket { number } = ticket;
        let found = look_at(&self.board.shared, &mut lane.seat, 0, 0, number);
        let Some(value) = found else {
            return Err(Ticket { number });
        };
        Ok(Guard { value, number })
    }

    /// Puts the guard's value back as the last one of the history, and serves the next ticket: one exchange that
    /// brings the value home, and then one fetch_add. The lane must be one of this lock, and inside with this guard;
    /// the value found must come before the value left, and the parts of other lanes must be as found.
    pub fn leave(&self, lane: &mut Lane<T>, guard: Guard<T>)
        requires lock { lane.old.lock ≡ self.now.id }
        requires inside { lane.old.inside ≡ guard.number ∷ [] }
        requires value { MayLeave T.before T.part lane.old guard.value }
        ensures { Left guard.value lane.old lane.new }
    {
        let Guard { value, number: _ } = guard;
        leave_at(&self.board.shared, &mut lane.seat, 0, 0, value);
    }

    /// What the lane has seen, for another lane.
    pub fn tell(&self, lane: &mut Lane<T>) -> Note<T>
        requires { lane.old.lock ≡ self.now.id }
        ensures lane { lane.new ≡ lane.old }
        ensures note { (result.lock ≡ lane.old.lock) × (result.seen ≡ lane.old.seen) }
    {
        Note {
            seat: self.board.shared.split_seat::<Tells>(&mut lane.seat),
        }
    }

    /// The lane has then seen what it had seen and what the note's lane had seen when it told: one load. The lane and
    /// the note must be of this lock.
    pub fn learn(&self, lane: &mut Lane<T>, note: Note<T>)
        requires { (lane.old.lock ≡ self.now.id) × (note.lock ≡ self.now.id) }
        ensures { LearnedNote T.before T.part note lane.old lane.new }
    {
        let seat = note.into_seat();
        self.board.shared.join_seat::<Merges>(&mut lane.seat, seat);
        self.board.shared.load::<TakesIn>(&mut lane.seat, 0);
    }

    /// Draws a ticket and looks until it is served, with a pause between two looks, and after some looks yields
    /// between two. `Spent` is returned if and only if the lane has drawn all its tickets, and changes nothing. The
    /// lane must be one of this lock.
    pub fn enter<R: Wait>(&self, rt: &R, lane: &mut Lane<T>) -> Result<Guard<T>, Spent>
        requires { lane.old.lock ≡ self.now.id }
        ensures { MatchResult result (λ g. EnteredLock T.before T.part g lane.old lane.new)
            (λ _. LaneWasSpent lane.old lane.new) }
    {
        if lane.left == 0 {
            return Err(Spent);
        }
        let (number, value) = enter_at(rt, &self.board.shared, &mut lane.seat, 0, 0);
        lane.left -= 1;
        Ok(Guard { number, value })
    }
}
