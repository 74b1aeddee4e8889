//! The callers and the finished frames of calls.

ghost use Rattle.std.specs.Prelude.{◌≡◌, [], OnOk};
ghost use Rattle.saturation.specs.Calls.{callers_of, finished_of};
ghost use Rattle.saturation.specs.declared.item.Entry.{Entry as AnEntry};

use crate::item::Entry;
use crate::paired::{Finished, Resting};
use groups::Groups;
use std::alloc::Allocator;

/// Of each call, the callers and the finished frames that were worked on.
#[derive(Drop)]
pub(crate) struct Calls<A: Allocator> {
    pub(crate) callers: Groups<Entry, Resting, A>,
    pub(crate) finished: Groups<Entry, Finished, A>,
}

impl<A: Allocator + Copy> Calls<A> {
    /// No calls; this takes no memory yet.
    pub(crate) fn new(alloc: A) -> Self
        ensures callers { (entry : AnEntry) → callers_of result entry ≡ [] }
        ensures finished { (entry : AnEntry) → finished_of result entry ≡ [] }
    {
        Calls {
            callers: Groups::new(alloc),
            finished: Groups::new(alloc),
        }
    }
}
