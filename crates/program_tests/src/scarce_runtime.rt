//! A runtime whose memory may be refused.

use scarce::Scarce;
use std::alloc::Global;
use std::sync::Wait;
use std::thread::Threads;

/// Has the threads of a runtime, and a scarce allocator in place of that runtime's own.
#[derive(Drop)]
pub struct ScarceRuntime<'a, R> {
    pub rt: &'a R,
    pub scarce: &'a Scarce<Global>,
}

impl<'a, R> Alloc for ScarceRuntime<'a, R> {
    type A = &'a Scarce<Global>;

    fn alloc(&self) -> &'a Scarce<Global> {
        self.scarce
    }
}

impl<R: Wait> Wait for ScarceRuntime<'_, R> {}

impl<R: Threads> Threads for ScarceRuntime<'_, R> {}
