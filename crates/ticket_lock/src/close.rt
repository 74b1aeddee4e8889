//! The end of a lock.
ghost use Rattle.std.specs.Prelude.{◌≡◌, ℕ, List, length, All};
ghost use Rattle.std.specs.Iterator.{IsFinite, HoldsAlong, Drains};
ghost use Rattle.ticket_lock.specs.declared.lane.Lane.{Lane};
ghost use Rattle.ticket_lock.specs.Lone.{IsWhole, Rests, KeepsParts};
ghost use Rattle.ticket_lock.specs.History.{IsRising};
ghost use Rattle.ticket_lock.specs.Lanes.{IsLockTable};
ghost use Rattle.ticket_lock.specs.Promises.{IsIdle, ClosesLock, KeepsOwn, ComesLast};

use crate::alone::{Arrives, LoneSeat, LoneTable, Merges, TakesIn};
use crate::lane::Lane;
use crate::law::LaneLaw;
use crate::lock::TicketLock;
use std::alloc::Allocator;

// Takes the value out of a table whose lanes the seat has all.
fn finish<T: LaneLaw, A: Allocator>(board: LoneTable<T, A>, seat: LoneSeat<T>) -> T
    requires table { (seat.table_id ≡ board.shared.table_id) × IsLockTable board.shared.table_id }
    requires whole { IsWhole board.shared.key.lanes seat.me.0 }
    ensures rests { Rests board.shared.key.value.value seat.me.0 result }
    ensures parts { KeepsParts T.part seat.me.0 result }
    ensures rises { IsRising T.before seat.me.0.hand.seen }
{
    let mut closed = board.close_with(seat);
    let last = closed.take(0);
    closed.free();
    let Some(value) = last else { unreachable!() };
    value
}

impl<T: LaneLaw, A: Allocator> TicketLock<T, A> {
    /// The value that was left last, or the opening value if none was; it has each lane's own part as that lane left
    /// it, and what each lane had seen comes before it. The iterator must give all lanes of the lock, none with a
    /// ticket or a guard in hand.
    pub fn close<I: Iterator<Item = Lane<T>> + Drop>(self, lanes: I) -> T
        requires can { I.can_next lanes }
        requires finite { IsFinite (I.remaining lanes) }
        requires idle { HoldsAlong I.next_gives lanes (All (IsIdle self.id)) }
        requires all { (xs : List (Lane T)) → Drains I.next_gives lanes xs
            → length xs ≡ self.lanes }
        ensures { (xs : List (Lane T)) × Drains I.next_gives lanes xs
            × ClosesLock self.opening xs result
            × KeepsOwn T.part xs result × ComesLast T.before xs result }
    {
        let board = self.into_board();
        let (_, mut seat) = board.shared.load_new_seat::<Arrives>(0);
        for lane in lanes {
            let own = lane.into_seat();
            board.shared.join_seat::<Merges>(&mut seat, own);
            board.shared.load::<TakesIn>(&mut seat, 0);
        }
        finish(board, seat)
    }
}
