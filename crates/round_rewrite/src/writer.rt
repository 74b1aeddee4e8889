//! What the rewriting of one procedure needs.

use crate::rounds::Rounds;
use std::alloc::Allocator;
use trees::Name;

/// Writes what the statements of one procedure are rewritten to: where it allocates, for how many rounds, and the
/// procedure's formals and locals, which may hide globals.
#[derive(Drop)]
pub(crate) struct Writer<'a, N: Allocator, A: Allocator + Copy> {
    pub(crate) alloc: &'a A,
    pub(crate) rounds: Rounds,
    pub(crate) formals: &'a [Name<N>],
    pub(crate) locals: &'a [Name<N>],
}
