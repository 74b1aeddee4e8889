//! The lanes of the passes of a board.
use crate::mail::Mail;
use crate::one_lock::book::Book;
use crate::one_lock::pass::OnePass;
use std::alloc::Allocator;
use std::vec::IntoIter;
use ticket_lock::Lane;

/// The lanes of passes, in their order.
#[derive(Drop)]
pub(crate) struct Lanes<M: Mail<W>, W, A: Allocator> {
    pub(crate) passes: IntoIter<OnePass<M, W, A>, A>,
}

impl<M: Mail<W>, W, A: Allocator> Iterator for Lanes<M, W, A> {
    ghost use Rattle.std.specs.Iterator.{at_most};
    ghost use Rattle.std.specs.Vec.Iter.{into_iter_len};
    ghost use Rattle.switchboard.specs.Unwraps.{Unwraps};

    type Item = Lane<Book<M, W, A>>;

    ghost next_gives = { λ s r t. Unwraps M.fits s.passes r t.passes };

    ghost remaining = { λ s. at_most (into_iter_len s.passes) };

    fn next(&mut self) -> Option<Lane<Book<M, W, A>>> {
        let pass = self.passes.next()?;
        let OnePass {
            lane,
            world: _,
            boxes: _,
            kept: _,
        } = pass;
        Some(lane)
    }
}
