//! Rows of what leads from a text to its tables, and of boards: each line of the standard input is a case, and is printed again with
//! its result. What is wanted was worked out by hand. A line that begins with `#` is a heading.
//!
//! The first word of a case says what it is about. `each allocation: ` before a case has each of its allocations
//! refused in turn (crates/cases/README.md has the other prefixes of that kind).
//!
//! | First word | What is printed under the line |
//! |---|---|
//! | `cut`, `deep`, `same`, `operator`, `faults`, `length` | what is asked of the tokens of a text (texts.rt) |
//! | `read`, `assert`, `print`, `fronts`, `fault` | what is read from a text (texts.rt) |
//! | `check`, `parts` | what the check of scopes says about a text (rewritings.rt) |
//! | `rewrite`, `holds`, `fits`, `widths`, `rounds` | what a text is rewritten to (rewritings.rt) |
//! | a number | the answer to a question on the flow graphs of a text that is rewritten for so many rounds (graphs.rt) |
//! | `set`, `many`, `nodes` | what sets of path edges return (sets.rt) |
//! | `limit`, `summaries`, `table` | what a table owes after some messages, and what it all comes to (tables.rt) |
//! | `sweep` | what a sweep says of runs that leak, answer wrongly, or are well (faulty.rt) |
//! | `one`, `lock` | what a board returns after an abort (boards.rt) |
#![tactic(auto)]

mod boards;
mod faulty;
mod graphs;
mod rewritings;
mod sequential;
mod sets;
mod sweeps;
mod tables;
mod texts;

use cases::{each_case, sweep_before};
use std::alloc::{AllocError, Global};
use std::io;
use std::sync::Wait;

/// Writes the result of a line.
fn answer<R: Wait>(rt: &R, alloc: Global, out: &mut String, line: &str) -> Result<(), AllocError> {
    let (sweep, case) = sweep_before(line);
    let (word, rest) = case.split_once(' ').unwrap_or((case, ""));
    match word {
        "cut" | "deep" | "same" | "operator" | "faults" | "length" => {
            texts::answer(alloc, out, sweep, word, rest)
        }
        "read" | "assert" | "print" | "fronts" | "fault" => {
            texts::answer(alloc, out, sweep, word, rest)
        }
        "check" | "parts" | "rewrite" | "holds" | "fits" | "widths" | "rounds" => {
            rewritings::answer(alloc, out, sweep, word, rest)
        }
        "set" | "many" | "nodes" => sets::answer(alloc, out, sweep, word, rest),
        "limit" | "summaries" | "table" => tables::answer(alloc, out, sweep, word, rest),
        "sweep" => faulty::answer(alloc, out, sweep, rest),
        "one" | "lock" => boards::answer(rt, alloc, out, line),
        _ => graphs::answer(alloc, out, sweep, case),
    }
}

fn main(rt: HostRuntime) -> io::Result<()> {
    each_case(
        &rt,
        |line: &str, out: &mut String| answer(&rt, rt.alloc(), out, line),
    )
}
