//! The rule of a board with a lock for each mailbox.
use crate::lock_per_box::knowing::{Ground, Knowing};
use crate::mail::Mail;
use atomic_table::TableRule;
use post_ledger::Mailbox;
use std::alloc::Allocator;
use ticket_lock::LockRule;

/// The rule of a board with a lock for each mailbox.
pub struct Boxes;

impl<W, M: Mail<W>, A: Allocator> TableRule<
    Option<Mailbox<M, A>>,
    Knowing<M, W, Mailbox<M, A>>,
    Ground<M, W>,
> for Boxes {
    ghost use Rattle.switchboard.specs.PerBox.{Rule};
    ghost use Rattle.switchboard.specs.Knowing.{first_view};

    ghost holds = { Rule M.fits };

    ghost first = { λ g. first_view g 0 g.boxes };
}

impl<W, M: Mail<W>, A: Allocator> LockRule<
    Mailbox<M, A>,
    Knowing<M, W, Mailbox<M, A>>,
    Ground<M, W>,
> for Boxes {
    ghost use Rattle.switchboard.specs.Knowing.{hand_at};
    ghost use Rattle.switchboard.specs.PerBox.{IsBox, LeavesEvents, TellsOrder};
    ghost use Rattle.switchboard.specs.Proved.PerBoxOpens.{boxes_open};

    ghost is_place = { IsBox };

    ghost see = { hand_at };

    ghost asks = { LeavesEvents M.fits };

    ghost tells = { TellsOrder M.fits };

    ghost opens = { boxes_open M.fits };
}
