//! What standard error says about a refusal.

use crate::verdicts::case::print_reply;
use crate::verdicts::refused::answer_without;
use cases::{Outcome, Sweep, Swept};
use cli::{Order, Refusal, answer, explain};
use scarce::Scarce;
use std::alloc::Global;
use std::io;
use std::sync::Wait;
use std::thread::Threads;

/// The outcome under a scarce allocator: if memory is refused there is no message, and else the whole one.
fn outcome(
    scarce: &Scarce<Global>,
    file: &str,
    text: &[u8],
    order: Order,
    refusal: &Refusal,
    whole: &str,
) -> Outcome {
    let mut message = String::new(scarce);
    match explain(scarce, &mut message, file, text, order, refusal) {
        Err(_) => Outcome::Memory,
        Ok(()) if !scarce.refused() && message.as_str() == whole => Outcome::Whole,
        Ok(()) => Outcome::Other,
    }
}

/// Prints the message for a refusal.
fn print_message<R: Print + AllocGlobal>(
    rt: &R,
    file: &str,
    text: &[u8],
    order: Order,
    refusal: &Refusal,
) -> io::Result<()> {
    let mut message = String::new(rt.alloc());
    let explained = explain(rt.alloc(), &mut message, file, text, order, refusal);
    let whole = message.as_str();
    let swept = Sweep::each().of(rt.alloc(), |scarce: &Scarce<Global>| {
        outcome(scarce, file, text, order, refusal, whole)
    });
    match (explained, swept) {
        (Ok(()), Swept::Kept(_)) => rt.print(whole),
        _ => println!(rt; "{swept:?}"),
    }
}

/// Prints the reply to a text and what standard error says about it.
pub fn print_told<R: Print + AllocGlobal + Wait + Threads + Sync>(
    rt: &R,
    file: &str,
    text: &[u8],
    order: Order,
) -> io::Result<()> {
    let reply = answer(rt, text, order);
    print_reply(rt, &reply)?;
    match &reply.refusal {
        Some(refusal) => print_message(rt, file, text, order, refusal),
        None => rt.print("nothing is told\n"),
    }
}

/// Prints the same if the first allocation of the answer is refused.
pub fn print_told_without<R: Print + AllocGlobal + Wait + Threads + Sync>(
    rt: &R,
    file: &str,
    text: &[u8],
    order: Order,
) -> io::Result<()> {
    let scarce = Scarce::refusing(rt.alloc(), 1);
    let reply = answer_without(rt, &scarce, text, order);
    print_reply(rt, &reply)?;
    match &reply.refusal {
        Some(refusal) => print_message(rt, file, text, order, refusal),
        None => rt.print("nothing is told\n"),
    }
}

/// Prints what standard error tells where a procedure passes the limit of an order, which may be one that no test
/// reaches: the procedure whose name begins the text, or `main__` for an empty text.
pub fn print_edge_limit<R: Print + AllocGlobal>(
    rt: &R,
    file: &str,
    text: &[u8],
    order: Order,
) -> io::Result<()> {
    let at = if text.is_empty() { None } else { Some(0) };
    print_message(rt, file, text, order, &Refusal::EdgeLimit(at))
}
