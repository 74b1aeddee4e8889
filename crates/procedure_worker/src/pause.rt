//! How a worker waits while its mailbox is empty.
ghost use Rattle.std.specs.Prelude.{◌≡◌};

use crate::desk::Desk;
use flow_graph::Graphs;
use std::alloc::Allocator;
use std::hint;
use std::sync::Wait;
use summaries::Due;
use switchboard::Board;
use ticket_lock::sleep;

/// How often a worker looks for a visit of its mailbox before it sleeps.
const LOOKS: u32 = 100;

/// Waits for a moment, the first time or after a number of waits in a row, or until more than this many visits of the
/// pass's mailbox have begun. It looks for one without the mailbox's lock, so that it holds up nobody who posts. Then
/// it sleeps, twice as long each time, so that a worker without work takes no processor from those that have some.
pub(crate) fn pause<R: Wait, G: Allocator, H: Allocator, B: Board<Due, Graphs<G>, H>, K>(
    desk: &Desk<'_, '_, R, G, B, K>,
    pass: &B::Pass,
    visits: u64,
    waits: u32,
)
    requires { (B.sight pass.now).board ≡ B.identity desk.now.context.now.board.now }
{
    for _ in 0..LOOKS {
        if desk.context.board.visits(pass) > visits {
            return;
        }
        hint::spin_loop();
    }
    sleep(desk.context.rt, waits);
}
