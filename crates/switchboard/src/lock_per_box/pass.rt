//! What a thread holds of the board with a lock for each mailbox.
use crate::lock_per_box::outstanding::BoxSeat;
use crate::mail::Mail;
use crate::world::Shown;
use std::alloc::Allocator;
use std::marker::Model;

/// A pass of a board with a lock for each mailbox. Contracts see it as a `Sight`.
#[derive(Drop)]
pub struct BoxPass<M: Mail<W>, W, A: Allocator> {
    pub(crate) seat: BoxSeat<M, W, A>,
    pub(crate) world: Shown<W>,
    pub(crate) boxes: u8,
    pub(crate) number: u8,
    /// How many calls it has left.
    pub(crate) left: u64,
    /// Whether it made an abort.
    pub(crate) made: bool,
}

impl<M: Mail<W>, W, A: Allocator> Model for BoxPass<M, W, A> {
    ghost use Rattle.switchboard.specs.Sights.{Sight};
    ghost use Rattle.switchboard.specs.BoxPasses.{box_sight, IsBoxPass};

    ghost Value = { Sight M W };

    ghost view = { λ p.
        box_sight p.seat.table_id p.number p.left p.made p.world.value p.boxes p.seat.me.0.seen };

    ghost invariant = { λ p.
        IsBoxPass M.fits p.seat.table_id p.number p.left p.made p.world.value p.boxes p.seat.me };
}

impl<M: Mail<W>, W, A: Allocator> BoxPass<M, W, A> {
    ghost use Rattle.switchboard.specs.BoxEnds.{HasSeat};

    pub(crate) fn into_seat(self) -> BoxSeat<M, W, A>
        ensures { HasSeat M.fits self result.table_id result.me }
    {
        let BoxPass {
            seat,
            world: _,
            boxes: _,
            number: _,
            left: _,
            made: _,
        } = self;
        seat
    }
}

/// What a pass had seen. Contracts see it as an `Account`.
#[derive(Drop)]
pub struct BoxTold<M: Mail<W>, W, A: Allocator> {
    pub(crate) seat: BoxSeat<M, W, A>,
}

impl<M: Mail<W>, W, A: Allocator> Model for BoxTold<M, W, A> {
    ghost use Rattle.switchboard.specs.Sights.{Account};
    ghost use Rattle.switchboard.specs.BoxPasses.{box_account, IsBoxTold};

    ghost Value = { Account M };

    ghost view = { λ t. box_account t.seat.table_id t.seat.me.0.seen };

    ghost invariant = { λ t. IsBoxTold t.seat.table_id t.seat.me };
}
