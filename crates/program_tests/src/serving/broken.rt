//! What is written for broken texts.

use crate::serving::breaking::{Lot, broken};
use crate::serving::kinds::{KINDS, kind_of};
use crate::serving::memory::served;
use cli::Order;
use std::rt::Files;
use std::sync::Wait;
use std::thread::Threads;
use std::{fs, io, str};

/// Which kind of line is written for a text.
fn kind_for<R: AllocGlobal + Wait + Threads + Sync>(
    rt: &R,
    text: &[u8],
    order: Order,
) -> &'static str {
    let (status, written) = served(rt, rt.alloc(), text, order);
    kind_of(str::from_utf8(written.as_slice()).unwrap_or(""), status)
}

/// The kinds of what is written for a number of broken texts, made from these files in turn.
fn kinds_of<R: Files + AllocGlobal + Wait + Threads + Sync>(
    rt: &R,
    files: &str,
    count: usize,
    order: Order,
) -> io::Result<Vec<&'static str>> {
    let mut texts = Vec::new(rt.alloc());
    for file in files.split_whitespace() {
        texts.push(fs::read(rt, file)?)?;
    }
    let mut lot = Lot::new(2_000);
    let mut kinds = Vec::new(rt.alloc());
    for nth in 0..count {
        let Some(text) = texts.get(lot.below(texts.len())) else {
            break;
        };
        let text = broken(rt.alloc(), text.as_slice(), nth, &mut lot)?;
        kinds.push(kind_for(rt, text.as_slice(), order))?;
    }
    Ok(kinds)
}

/// Prints how many lines of each kind are written for broken texts.
pub fn count<R: Files + Print + AllocGlobal + Wait + Threads + Sync>(
    rt: &R,
    files: &str,
    count: usize,
    order: Order,
) -> io::Result<()> {
    let found = kinds_of(rt, files, count, order)?;
    for kind in KINDS {
        let count = found.iter().filter(|it| **it == kind.0).count();
        println!(rt; "{count} {}", kind.0)?;
    }
    Ok(())
}
