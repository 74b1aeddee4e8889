//! One case.

use crate::verdicts::beginnings::beginnings;
use crate::verdicts::message::{print_edge_limit, print_told, print_told_without};
use crate::verdicts::refused::{in_turn, over_pairs};
use crate::verdicts::schedules::schedules;
use crate::verdicts::text::{bytes_of, name_of};
use crate::verdicts::words::{asked, print_fault, print_order};
use cases::{prefix_of, sweep_of};
use cli::{Order, Reply, answer};
use std::alloc::Allocator;
use std::io::{self, Write};
use std::sync::Wait;
use std::thread::Threads;

/// Prints the answer to a case.
pub fn answered<R: Print + AllocGlobal + Wait + Threads + Sync>(
    rt: &R,
    line: &str,
) -> io::Result<()> {
    match line.split_once(" | ") {
        Some((words, text)) => to_text(rt, words, text),
        None => print_order(rt, line),
    }
}

/// Prints the answer to words, preceded by how they are asked, and a text.
fn to_text<R: Print + AllocGlobal + Wait + Threads + Sync>(
    rt: &R,
    words: &str,
    text: &str,
) -> io::Result<()> {
    let (how, words) = prefix_of(words);
    let text = bytes_of(rt.alloc(), text)?;
    match asked(rt.alloc(), words) {
        Ok((order, file)) => {
            let file = name_of(rt.alloc(), file.as_str())?;
            print_with(rt, how, file.as_str(), text.as_slice(), order)
        }
        Err(fault) => print_fault(rt, &fault),
    }
}

/// Prints the answer to an order on a file with this name and text, asked in one of the ways of the table in
/// `verdicts.rt`.
fn print_with<R: Print + AllocGlobal + Wait + Threads + Sync>(
    rt: &R,
    how: &str,
    file: &str,
    text: &[u8],
    order: Order,
) -> io::Result<()> {
    match how {
        "message" => print_told(rt, file, text, order),
        "message without memory" => print_told_without(rt, file, text, order),
        "message of the edge limit" => print_edge_limit(rt, file, text, order),
        _ => print_how(rt, how, text, order),
    }
}

/// Prints the answer to an order, asked in one of the ways that need no name.
fn print_how<R: Print + AllocGlobal + Wait + Threads + Sync>(
    rt: &R,
    how: &str,
    text: &[u8],
    order: Order,
) -> io::Result<()> {
    let (pairs, prefix) = match how.strip_prefix("all pairs, ") {
        Some(prefix) => (4, prefix),
        None => (1, how),
    };
    match sweep_of(prefix) {
        Some(sweep) => in_turn(rt, sweep, pairs, text, order),
        None if how == "each beginning" => beginnings(rt, text, order),
        None if how == "each schedule" => schedules(rt, text, order),
        None if how == "each pair" => over_pairs(rt, text, order),
        None if how == "status" => println!(rt; "{}", answer(rt, text, order).status),
        None if how.is_empty() => print_reply(rt, &answer(rt, text, order)),
        None => rt.print("no case\n"),
    }
}

/// Prints a reply, its status first.
pub fn print_reply<R: Print + Alloc, A: Allocator>(rt: &R, reply: &Reply<A>) -> io::Result<()> {
    print!(rt; "{} ", reply.status)?;
    io::writer(rt).write_all(reply.bytes.as_slice())
}
