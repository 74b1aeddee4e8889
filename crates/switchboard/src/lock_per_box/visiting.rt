//! Entering and leaving the lock of a mailbox, on a board with a lock for each.
ghost use Rattle.std.specs.Prelude.{◌≡◌, List};
ghost use Rattle.ticket_lock.specs.Calls.{IsSameSeat, MayPass, Passed};
ghost use Rattle.post_ledger.specs.declared.event.Event.{Event};
ghost use Rattle.switchboard.specs.Knowing.{hand_at};
ghost use Rattle.switchboard.specs.PerBox.{word_of, IsBoxOf, CanDraw, IsInside, LeavesEvents};
ghost use Rattle.switchboard.specs.PerBox.{TellsOrder};

use crate::lock_per_box::outstanding::{Boards, BoxSeat};
use crate::mail::Mail;
use post_ledger::Mailbox;
use std::alloc::Allocator;
use std::sync::Wait;
use ticket_lock::{come_when_free_at, serve_next_at};

/// How many words lie between the locks of two mailboxes: 64 bytes, so that no two share a cache line.
pub(crate) const STRIDE: usize = 8;

pub(crate) fn first_word(number: u8) -> usize
    ensures { result ≡ word_of number }
{
    STRIDE * (usize::from(number) + 1)
}

/// Enters the lock of this mailbox, which then lies in its slot for the seat alone.
pub(crate) fn enter_box<R: Wait, W, M: Mail<W>, A: Allocator>(
    rt: &R,
    shared: &Boards<M, W, A>,
    seat: &mut BoxSeat<M, W, A>,
    number: u8,
)
    requires table { IsBoxOf shared.now.key shared.now.table_id seat.old.table_id number }
    requires ready { CanDraw (hand_at number seat.old.me.0) }
    ensures { IsSameSeat seat.old seat.new
        × (history : List (Event M)) × IsInside M.fits number history seat.old.me seat.new.me }
{
    come_when_free_at(rt, shared, seat, first_word(number), usize::from(number));
}

/// Serves the next ticket, with the mailbox as it lies in its slot as the value after the one found.
pub(crate) fn leave_box<W, M: Mail<W>, A: Allocator>(
    shared: &Boards<M, W, A>,
    seat: &mut BoxSeat<M, W, A>,
    number: u8,
)
    requires table { IsBoxOf shared.now.key shared.now.table_id seat.old.table_id number }
    requires inside { MayPass (hand_at number) (LeavesEvents M.fits number) number seat.old.me }
    ensures { IsSameSeat seat.old seat.new
        × Passed (hand_at number) (TellsOrder M.fits number) number seat.old.me seat.new.me }
{
    serve_next_at(shared, seat, first_word(number), usize::from(number));
}
