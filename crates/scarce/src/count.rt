ghost use Rattle.std.specs.Prelude.{◌≡◌, ◌↔◌, IsTrue};
ghost use Rattle.scarce.specs.Refusals.{IsRefused, HasRefused};

use std::sync::atomic::{AtomicU64, Ordering};

/// How many allocations were requested, how many blocks are in use, and which allocations are refused: those
/// numbered `first` to `last`, counted from 1.
#[derive(Drop)]
pub(crate) struct Count {
    asked: AtomicU64,
    out: AtomicU64,
    first: u64,
    last: u64,
}

impl Count {
    pub(crate) fn new(first: u64, last: u64) -> Count
        ensures first { result.first ≡ first }
        ensures last { result.last ≡ last }
    {
        Count {
            asked: AtomicU64::new(0),
            out: AtomicU64::new(0),
            first,
            last,
        }
    }

    pub(crate) fn asked(&self) -> u64 {
        self.asked.load(Ordering::SeqCst)
    }

    pub(crate) fn out(&self) -> u64 {
        self.out.load(Ordering::SeqCst)
    }

    pub(crate) fn has_refused(&self, asked: u64) -> bool
        ensures { IsTrue result ↔ HasRefused self.now asked }
    {
        let first = self.first.max(1);
        first <= asked && first <= self.last
    }

    fn refuses(&self, number: u64) -> bool
        ensures { IsTrue result ↔ IsRefused self.now number }
    {
        self.first <= number && number <= self.last
    }
}

/// Counts one more request, and returns whether it is passed on; its block is then in use.
// It has no clause: what a caller knows of it then holds whatever it returns.
pub(crate) fn permits(count: &Count) -> bool {
    let before = count.asked.fetch_add(1, Ordering::SeqCst);
    let is_passed_on = !count.refuses(before.wrapping_add(1));
    if is_passed_on {
        count.out.fetch_add(1, Ordering::SeqCst);
    }
    is_passed_on
}

/// Counts a block that is given back.
pub(crate) fn regains(count: &Count) {
    count.out.fetch_sub(1, Ordering::SeqCst);
}
