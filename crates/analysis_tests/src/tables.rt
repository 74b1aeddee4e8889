//! Cases of tables and of tabulation.
//!
//! | Line | What is printed under it |
//! |---|---|
//! | `limit N` | whether a limit may be N |
//! | `summaries K N \| TEXT` | the entries and pairs of each procedure for K rounds and at most N path edges, and whether one is bad |
//! | `each allocation: summaries K N \| TEXT` | the same, if each allocation that is refused leads to lack of memory |
//! | `table P K: MESSAGES \| TEXT` | what the table of procedure P owes after each message: `2.5` is an entry by procedure 2 with 5, `S.5` one by the starter, `s1.5.6` a summary of procedure 1, `s1.5.6.1` one with the result 1 |
//! | `each allocation: table P K: MESSAGES \| TEXT` | to which calls of that table an allocation was refused, with each kind of set |
//! A valuation is a number, whose bits are the places. If an allocation is refused, that call and each later one must
//! return lack of memory, all memory must come back, and without a refusal the table must owe the same.

mod refused_table;
mod tables;
mod whole;

use cases::{Sweep, first_word};
use std::alloc::{AllocError, Global};
use summaries::EdgeLimit;
use tables::messages;
use whole::summaries;

/// Writes the result of a case with ample memory, or in each run of a sweep.
pub fn answer(
    alloc: Global,
    out: &mut String,
    sweep: Option<Sweep>,
    word: &str,
    rest: &str,
) -> Result<(), AllocError> {
    let (asked, text) = rest.split_once(" | ").unwrap_or((rest, ""));
    match word {
        "limit" => limit(out, asked),
        "summaries" => summaries(alloc, out, first_word(asked), text, sweep),
        "table" => messages(alloc, out, asked, text, sweep),
        _ => Ok(()),
    }
}

/// Writes whether a limit may be this number.
fn limit(out: &mut String, number: &str) -> Result<(), AllocError> {
    match EdgeLimit::new(number.parse::<u32>().unwrap_or(0)) {
        Some(limit) => write!(out, "{}", limit.edges()),
        None => write!(out, "no limit"),
    }
}
