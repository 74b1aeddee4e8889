//! From a text to a checked program, and to the summaries that one thread tabulates.

use gather::tabulate_rounds;
use path_sets::PathSet;
use round_rewrite::Rounds;
use scopes::{Checked, check};
use std::alloc::{Allocator, Global};
use summaries::{EdgeLimit, NoVerdict, Summaries};
use syntax::read;

/// What is asked: a program, for how many rounds, with how many path edges a procedure at most, and what the workers
/// have.
#[derive(Drop)]
pub struct Asked {
    pub program: Checked<Global>,
    pub rounds: Rounds,
    pub limit: EdgeLimit,
    pub parts: Parts,
}

/// Which board the workers have, and which sets of path edges.
#[derive(Clone, Copy, PartialEq, Eq)]
pub struct Parts {
    /// One lock for all mailboxes, or else a lock for each.
    pub one_lock: bool,
    /// Decision diagrams, or else ordered sets.
    pub diagrams: bool,
}

/// What is asked, and with what it is tried.
#[derive(Drop)]
pub struct Trial<'a, R> {
    pub rt: &'a R,
    pub alloc: Global,
    pub asked: &'a Asked,
}

/// What two numbers and a text ask; nothing if the text is not a program, or a number is past its limit.
pub fn read_case(alloc: Global, parts: Parts, numbers: &str, text: &str) -> Option<Asked> {
    let (rounds, edges) = numbers.split_once(' ')?;
    Some(Asked {
        program: checked(alloc, text)?,
        rounds: Rounds::new(rounds.parse::<u8>().ok()?)?,
        limit: EdgeLimit::new(edges.parse::<u32>().ok()?)?,
        parts,
    })
}

/// The checked program of a text.
fn checked<A: Allocator + Copy>(alloc: A, text: &str) -> Option<Checked<A>> {
    check(alloc, read(alloc, text.as_bytes()).ok()?).ok()
}

/// What one thread tabulates.
pub fn on_one_thread<A: Allocator + Copy, S: PathSet<A>>(
    alloc: A,
    asked: &Asked,
) -> Result<Summaries<A>, NoVerdict> {
    tabulate_rounds::<S, A, Global>(alloc, &asked.program, asked.rounds, asked.limit)
}
