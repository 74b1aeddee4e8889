//! The end of a board with a lock for each mailbox.
ghost use Rattle.std.specs.Prelude.{◌≡◌, ℕ, ◌<◌, ◌≤◌, [], length, map, vec_len, vec_capacity};
ghost use Rattle.switchboard.specs.Promises.{AreAll, Settles};
ghost use Rattle.switchboard.specs.Knowing.{hand_at};
ghost use Rattle.switchboard.specs.PerBox.{IsBoardTable};
ghost use Rattle.switchboard.specs.BoxEnds.{Gathered, BoardEnds};

use crate::lock_per_box::board::{BoxTable, LockPerBox};
use crate::lock_per_box::outstanding::{ABORTED, Boards, BoxSeat, take_in};
use crate::lock_per_box::pass::BoxPass;
use crate::mail::Mail;
use post_ledger::{Ledger, Mailbox};
use std::alloc::Allocator;

/// Takes all passes out of the list, and returns a seat that has all that they had.
fn gather<W, M: Mail<W>, A: Allocator>(
    shared: &Boards<M, W, A>,
    passes: &mut Vec<BoxPass<M, W, A>, A>,
) -> BoxSeat<M, W, A>
    requires table { IsBoardTable shared.now.table_id shared.now.key.boxes
        × (0 < shared.now.key.boxes) }
    requires all { AreAll shared.now.table_id shared.now.key.boxes passes.old.items }
    ensures empty { passes.new.items ≡ [] }
    ensures table { result.table_id ≡ shared.now.table_id }
    ensures gathered { Gathered shared.now.key.boxes passes.old.items 0 result.me }
{
    let Some(last) = passes.pop() else {
        unreachable!()
    };
    let mut seat = last.into_seat();
    while let Some(pass) = passes.pop() {
        take_in(shared, &mut seat, pass.into_seat());
    }
    seat
}

/// Takes all mailboxes out of a table whose passes the seat has all, and returns whether the board is closed.
fn settle<W, M: Mail<W>, A: Allocator>(
    table: BoxTable<M, W, A>,
    seat: BoxSeat<M, W, A>,
    room: &mut Vec<Mailbox<M, A>, A>,
) -> bool
    requires table { (seat.table_id ≡ table.shared.table_id)
        × IsBoardTable table.shared.table_id table.shared.key.boxes }
    requires whole { (length seat.me.0.lanes ≡ table.shared.key.boxes) × (seat.me.0.owes ≡ 0)
        × ((q : ℕ) → q < table.shared.key.boxes → (hand_at q seat.me.0).inside ≡ []) }
    requires room { (room.old.items ≡ []) × (table.shared.key.boxes ≤ vec_capacity room.old) }
    ensures { BoardEnds M.fits table.shared.key seat.me.0 room.new.items result }
{
    let mut closed = table.close_with(seat);
    let word = closed.word(0);
    for slot in 0..closed.slot_count() {
        let Some(mailbox) = closed.take(slot) else {
            unreachable!()
        };
        room.push_reserved(mailbox);
    }
    closed.free();
    word % ABORTED == 0
}

impl<M: Mail<W>, W, A: Allocator> LockPerBox<M, W, A> {
    pub(crate) fn into_ledger(self, passes: &mut Vec<BoxPass<M, W, A>, A>) -> Ledger<M, A>
        requires { AreAll self.table.shared.table_id self.table.shared.key.boxes passes.old.items }
        ensures empty { passes.new.items ≡ [] }
        ensures settles { Settles M.fits self.table.shared.key.boxes passes.old.items
            result.histories.items result.closed }
    {
        let LockPerBox { table, mut room } = self;
        let seat = gather(&table.shared, passes);
        let closed = settle(table, seat, &mut room);
        Ledger {
            histories: room,
            closed,
        }
    }
}
