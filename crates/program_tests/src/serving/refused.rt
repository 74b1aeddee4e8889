//! Each allocation refused in turn.

use crate::scarce_runtime::ScarceRuntime;
use crate::serving::memory::served;
use crate::serving::print_reply;
use cases::{Outcome, Sweep, Swept};
use cli::Order;
use scarce::Scarce;
use std::alloc::Global;
use std::io;
use std::sync::Wait;
use std::thread::Threads;

/// The outcome under a scarce allocator; a reply is a status and bytes.
fn outcome<R: AllocGlobal + Wait + Threads + Sync>(
    rt: &R,
    scarce: &Scarce<Global>,
    text: &[u8],
    order: Order,
    whole: &(u8, Vec<u8>),
) -> Outcome {
    let (status, bytes) = served(&ScarceRuntime { rt, scarce }, rt.alloc(), text, order);
    match bytes.as_slice() {
        bytes if status == whole.0 && bytes == whole.1.as_slice() => Outcome::Whole,
        b"no verdict: memory\n" if status == 3 => Outcome::Memory,
        _ => Outcome::Other,
    }
}

/// Prints the reply without refusal.
pub fn in_turn<R: Print + AllocGlobal + Wait + Threads + Sync>(
    rt: &R,
    text: &[u8],
    order: Order,
) -> io::Result<()> {
    let whole = served(rt, rt.alloc(), text, order);
    let swept = Sweep::each().of(rt.alloc(), |scarce: &Scarce<Global>| {
        outcome(rt, scarce, text, order, &whole)
    });
    match swept {
        Swept::Kept(_) => print_reply(rt, whole.0, whole.1.as_slice()),
        _ => println!(rt; "{swept:?}"),
    }
}
