//! Words of the command line.

use cases::words_behind;
use cli::{LineFault, Order, order};
use std::alloc::Global;
use std::io;

/// The order and the file of a line of words after the program's name, or why there are none.
pub fn asked(alloc: Global, line: &str) -> Result<(Order, String), LineFault> {
    match words_behind(alloc, "bebopk", line) {
        Ok(words) => order(alloc, words.as_slice()),
        Err(_) => Err(LineFault::Memory),
    }
}

/// Prints the order that words give.
pub fn print_order<R: Print + AllocGlobal>(rt: &R, line: &str) -> io::Result<()> {
    match asked(rt.alloc(), line) {
        Ok(
            (
                Order::Check {
                    rounds,
                    edges,
                    stats,
                },
                file,
            ),
        ) => println!(rt;
            "check {} {}{} {file}",
            rounds.count(),
            edges.edges(),
            if stats { " with counts" } else { "" }
        ),
        Ok((Order::Sequential { rounds }, file)) => println!(rt;
            "sequential {} {file}",
            rounds.count()
        ),
        Err(fault) => print_fault(rt, &fault),
    }
}

/// Prints why words give no order.
pub fn print_fault<R: Print>(rt: &R, fault: &LineFault) -> io::Result<()> {
    match fault {
        LineFault::Help(text) if text.as_str().contains("\n\nExample: bebopk ") => rt.print(
            "help\n",
        ),
        LineFault::Help(text) => rt.print(text.as_str()),
        LineFault::Refused(why) if !why.is_empty() => rt.print("refused: line\n"),
        LineFault::Refused(_) => rt.print("without a reason\n"),
        LineFault::Memory => rt.print("no verdict: memory\n"),
    }
}
