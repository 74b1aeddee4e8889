//! Rows of the program, of its answers and of its workers: each line of the standard input is a case, and is printed
//! again with its result. Those of the answers are in `verdicts.rt`, those of the workers in `workers.rt`, and these
//! are of the program:
//!
//! | Line | What is printed under it |
//! |---|---|
//! | `program: WORDS` | what the program does for the words: the status, and what the standard output and the standard error took |
//! | `file: WORDS \| TEXT` | the same; the only files are `FILES` of `serving.rt`, with this text |
//! | `a word is no UTF-8: ..`, `no memory for the words: ..` | the same if the system does not pass on the words for this reason |
//! | `broken COUNT: WORDS \| FILES` | how many lines of each kind `serve` writes for COUNT broken texts, made from these files in turn |
//! | `serve HOW: WORDS \| TEXT` | the status that `serve` gives, and what the writer took; for a stream, what the log took too |
//! | `slip: TEXT` | what standard error says about the text, which is the file `a.bp`, checked for one round |
//! | `mended: TEXT` | the reply to the text, after the advice of the slip above it |
//! | `slip of WORDS: TEXT` | what standard error says for these words of the command line, with that file |
//!
//! | `HOW` | How `serve` reads and writes; for a stream, `serve_telling` |
//! |---|---|
//! | | from memory and to memory |
//! | `a text padded to COUNT` | the same, the text followed by blanks to COUNT bytes |
//! | `with each allocation refused` | the same; with each refused in turn, which leaves the reply or leads to `no verdict: memory` |
//! | `one byte a call` | one byte per call, and every other call is interrupted |
//! | `with a reader that fails after COUNT` | the reader fails after COUNT bytes |
//! | `with a writer that fails after COUNT` | the writer fails after COUNT bytes |
//!
//! In the words `{N}` stands for the character with the number N, except in those of a slip. In the text of a slip and
//! of `file`, `\n`, `\r`, `\t` and `\xHH` stand for a line feed, a carriage return, a tab, and the byte of these two
//! hexadecimal digits. A line that begins with `#` is a heading, and has no answer. `long.bp` is a file of 65,537
//! bytes, which the program writes first.
#![tactic(auto)]

mod escapes;
mod scarce_runtime;
mod serving;
mod slips;
mod verdicts;
mod workers;

use cases::{each_line, prefix_of, print_written};
use std::io;
use std::rt::Files;
use std::sync::Wait;
use std::thread::Threads;

/// Prints the result of a case of workers.
fn print_workers<R: Print + AllocGlobal + Wait + Threads + Sync>(
    rt: &R,
    line: &str,
) -> io::Result<()> {
    let mut out = String::new(rt.alloc());
    let written = workers::answer(rt, rt.alloc(), &mut out, line);
    print_written(rt, written, out.as_str())
}

/// Prints the result of a case.
fn answered<R: Files + Print + AllocGlobal + Wait + Threads + Sync>(
    rt: &R,
    line: &str,
) -> io::Result<()> {
    if workers::is_case(line) {
        return print_workers(rt, line);
    }
    let (how, rest) = prefix_of(line);
    let (kind, behind) = how.split_once(' ').unwrap_or((how, ""));
    match kind {
        "mended" => slips::print_mended(rt, rest),
        "slip" => slips::print_slip(rt, behind.strip_prefix("of ").unwrap_or(slips::WORDS), rest),
        "program" | "file" | "a" | "no" | "broken" | "serve" => serving::answered(rt, how, rest),
        _ => verdicts::answered(rt, line),
    }
}

fn main(rt: HostRuntime) -> io::Result<()> {
    serving::write_long(&rt)?;
    each_line(&rt, |line: &str| answered(&rt, line))
}
