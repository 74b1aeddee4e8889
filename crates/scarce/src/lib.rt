//! An allocator for tests, over another one, that refuses one allocation, or every one from some number on.
#![tactic(auto)]

ghost use Rattle.std.specs.Prelude.{◌≡◌, ℕ, ◌≤◌, ◌<◌, ◌^◌, ◌↔◌};
ghost use Rattle.scarce.specs.Refusals.{RefusesAllocation, inner_of};

mod count;

use count::{Count, permits, regains};
use std::alloc::{AllocError, Allocator};

/// An allocator that counts what is requested of it and refuses some of it. What it does not refuse it passes on to
/// `B`.
///
/// Share it by `&`: a `&Scarce<B>` is an allocator, and threads may hold one each if `B` is `Sync`.
pub struct Scarce<B: Allocator> {
    inner: B,
    count: Count,
}

impl<B: Allocator> Scarce<B> {
    /// Refuses the allocation numbered `nth`, counted from 1, and no other. At 0 it refuses none.
    pub fn refusing(inner: B, nth: u64) -> Scarce<B>
        ensures one { (number : ℕ) → RefusesAllocation result number ↔ (number ≡ nth) }
        ensures over { inner_of result ≡ inner }
    {
        Scarce {
            inner,
            count: Count::new(nth, nth),
        }
    }

    /// Refuses every allocation from the one numbered `nth` on, counted from 1. At 0 and at 1 it refuses each.
    pub fn refusing_from(inner: B, nth: u64) -> Scarce<B>
        ensures rest { (number : ℕ) → number < 2 ^ 64
            → RefusesAllocation result number ↔ (nth ≤ number) }
        ensures over { inner_of result ≡ inner }
    {
        Scarce {
            inner,
            count: Count::new(nth, u64::MAX),
        }
    }

    /// How many allocations were requested so far, including those that were refused. The growth of a block
    /// counts as one.
    pub fn asked(&self) -> u64 {
        self.count.asked()
    }

    /// How many blocks are in use: those of the requests that were passed on, less those that were given back. A
    /// request that `B` refuses counts as a block that is never given back.
    pub fn live(&self) -> u64 {
        self.count.out()
    }

    /// Whether an allocation was refused so far.
    pub fn refused(&self) -> bool {
        self.count.has_refused(self.asked())
    }
}

impl<B: Allocator> Drop for Scarce<B> {
    fn drop(self) {
        let Self { inner: _, count: _ } = self;
    }
}

unsafe impl<B: Allocator> Allocator for Scarce<B> {
    ghost dealloc_token = { λ heap ty ptr. B.dealloc_token heap.inner ty ptr };

    fn allocate(&self, size: usize, align: usize) -> Result<*mut u8, AllocError> {
        if permits(&self.count) {
            self.inner.allocate(size, align)
        } else {
            Err(AllocError)
        }
    }

    unsafe fn deallocate(&self, ptr: *mut u8, size: usize, align: usize) {
        regains(&self.count);
        self.inner.deallocate(ptr, size, align);
    }
}
