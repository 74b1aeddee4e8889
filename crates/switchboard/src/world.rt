//! The world of a board, as its contracts see it.
ghost use Rattle.std.specs.Prelude.{◌≡◌};
ghost use Rattle.std.specs.Borrow.{ftrue};

use std::marker::{Model, PhantomData};

/// A world that only clauses read. It has no bytes and owns nothing, so what holds it may go to another thread.
// It says what std's `Snapshot` says; of a type that holds a `Snapshot` the toolchain makes no proof that it may go to
// a thread.
#[derive(Drop)]
pub(crate) struct Shown<W> {
    of: PhantomData<W>,
    pub(crate) ghost value: { W },
}

impl<W> Model for Shown<W> {
    ghost also_owns = { λ _. ftrue };
}

impl<W> Shown<W> {
    pub(crate) fn of(world: &W) -> Shown<W>
        ensures { result.value ≡ world.now }
    {
        let _ = world;
        Shown { of: PhantomData }
    }
}

// A mark for the type checker: that it may go is proved in `proofs`.
unsafe impl<W> Send for Shown<W> {}
