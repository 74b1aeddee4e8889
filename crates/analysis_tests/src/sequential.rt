//! From a text to a sequential program.

use resolved::Sequential;
use round_rewrite::{Rounds, rewrite};
use scopes::{Checked, check};
use std::alloc::Allocator;
use syntax::read;

/// The checked program of a text.
fn checked<A: Allocator + Copy>(alloc: A, text: &str) -> Option<Checked<A>> {
    check(alloc, read(alloc, text.as_bytes()).ok()?).ok()
}

/// The sequential program that a text is rewritten to for some rounds.
pub fn rewritten<A: Allocator + Copy>(alloc: A, text: &str, rounds: u64) -> Option<Sequential<A>> {
    let rounds = Rounds::new(u8::try_from(rounds).ok()?)?;
    let checked = checked(alloc, text)?;
    let sequential = rewrite(&alloc, &checked, rounds);
    drop(checked);
    sequential.ok()
}
