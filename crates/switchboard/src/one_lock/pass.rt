//! What a thread holds of the board behind one lock.
use crate::mail::Mail;
use crate::one_lock::book::Book;
use crate::world::Shown;
use post_ledger::Entry;
use std::alloc::Allocator;
use std::collections::LinkedList;
use std::marker::Model;
use ticket_lock::{Lane, LaneLaw, Note};

// A state comes before those that continue from it. A pass's own part is what it made itself.
impl<W, M: Mail<W>, A: Allocator> LaneLaw for Book<M, W, A> {
    ghost use Rattle.switchboard.specs.Passes.{share, Comes};
    ghost use Rattle.switchboard.specs.Proved.Laws.{comes_refl, comes_trans};

    type Part = (LinkedList<Entry<M>>, bool);

    ghost before = { Comes M.fits };

    ghost part = { share };

    ghost reflexive = { comes_refl M.fits };

    ghost transitive = { comes_trans M.fits };
}

/// A pass of a board behind one lock. Contracts see it as a `Sight`.
#[derive(Drop)]
pub struct OnePass<M: Mail<W>, W, A: Allocator> {
    pub(crate) lane: Lane<Book<M, W, A>>,
    pub(crate) world: Shown<W>,
    pub(crate) boxes: u8,
    /// Whether the ticket of the first abort is still kept.
    pub(crate) kept: bool,
}

impl<M: Mail<W>, W, A: Allocator> Model for OnePass<M, W, A> {
    ghost use Rattle.switchboard.specs.Sights.{Sight};
    ghost use Rattle.switchboard.specs.Passes.{sight_of, IsPass};

    ghost Value = { Sight M W };

    ghost view = { λ p. sight_of p.lane p.world.value p.boxes p.kept };

    ghost invariant = { λ p. IsPass M.fits p.lane p.world.value p.boxes p.kept };
}

/// What a pass had seen. Contracts see it as an `Account`.
#[derive(Drop)]
pub struct OneTold<M: Mail<W>, W, A: Allocator> {
    pub(crate) note: Note<Book<M, W, A>>,
}

impl<M: Mail<W>, W, A: Allocator> Model for OneTold<M, W, A> {
    ghost use Rattle.switchboard.specs.Sights.{Account};
    ghost use Rattle.switchboard.specs.Passes.{account_of, IsTold};

    ghost Value = { Account M };

    ghost view = { λ t. account_of t.note };

    ghost invariant = { λ t. IsTold M.fits t.note };
}
