//! One case.
ghost use Rattle.std.specs.Prelude.{◌≤◌};

use crate::boards::calls::{Act, Name};
use crate::boards::ends::{settle, write_counts};
use crate::boards::letters::{Letter, Letters};
use crate::boards::row::{open, play};
use std::alloc::{AllocError, Global};
use std::sync::Wait;
use switchboard::{LockPerBox, OneLock};

/// After more calls than a row has.
const NEVER: usize = 16;

/// Which abort is inserted.
#[derive(Clone, Copy)]
pub(crate) struct Case {
    /// Each pass has one call fewer.
    budget: u64,
    /// The job that the pass has, or would have.
    pub(crate) name: Name,
    pub(crate) act: Act,
    /// The call that it comes after; `NEVER` for no abort.
    pub(crate) after: usize,
    pub(crate) twice: bool,
    ghost in_range: { (2 ≤ budget) × (budget ≤ 1000) },
}

/// Writes the result of a line.
pub fn answer<R: Wait>(
    rt: &R,
    alloc: Global,
    out: &mut String,
    line: &str,
) -> Result<(), AllocError> {
    let (board, words) = line.split_once(", ").unwrap_or((line, ""));
    match (board, case_of(words)) {
        ("one lock", Some(case)) => {
            write_row::<R, OneLock<Letter, (), Global>>(rt, alloc, &case, out)
        }
        ("lock for each", Some(case)) => {
            write_row::<R, LockPerBox<Letter, (), Global>>(rt, alloc, &case, out)
        }
        _ => write!(out, "no such case"),
    }
}

/// The abort that the words describe: `pass 1, job 2, after 7`, or `no abort`.
fn case_of(words: &str) -> Option<Case> {
    let (budget, words) = match words.strip_prefix("budget ") {
        Some(rest) => {
            let (budget, rest) = rest.split_once(", ")?;
            (budget.parse::<u64>().ok()?, rest)
        }
        None => (1000, words),
    };
    if words == "no abort" {
        return case_with(budget, Name::J0, Act::AbortAlone, NEVER, false);
    }
    let (by, after) = words.split_once(", after ")?;
    let (name, act) = abort_of(by)?;
    let (after, twice) = match after.strip_suffix(", twice") {
        Some(after) => (after, true),
        None => (after, false),
    };
    case_with(budget, name, act, after.parse::<usize>().ok()?, twice)
}

/// The case, if its numbers are in range.
fn case_with(budget: u64, name: Name, act: Act, after: usize, twice: bool) -> Option<Case> {
    if budget < 2 || budget > 1000 || after > NEVER {
        return None;
    }
    Some(Case {
        budget,
        name,
        act,
        after,
        twice,
    })
}

/// The abort by a pass, with a job or without one.
fn abort_of(words: &str) -> Option<(Name, Act)> {
    match words {
        "pass 0, no job" => Some((Name::J0, Act::AbortAlone)),
        "pass 1, no job" => Some((Name::J1, Act::AbortAlone)),
        "pass 0, job 0" => Some((Name::J0, Act::Abort)),
        "pass 1, job 1" => Some((Name::J1, Act::Abort)),
        "pass 1, job 2" => Some((Name::J2, Act::Abort)),
        _ => None,
    }
}

/// Writes the result of a row over a board.
fn write_row<R: Wait, B: Letters + Drop>(
    rt: &R,
    alloc: B::Heap,
    case: &Case,
    out: &mut String,
) -> Result<(), AllocError>
where
    B::Heap: Clone,
    B::Pass: Drop,
    B::Told: Drop,
{
    let heap = alloc.clone()?;
    let (board, mut row) = open::<B>(alloc, case.budget)?;
    let played = play(rt, &board, &mut row, case, out);
    let ledger = settle(rt, heap, board, row)?;
    played?;
    write_counts(out, &ledger)
}
