//! The same answer whatever the schedule of its workers.

use crate::verdicts::case::print_reply;
use crate::verdicts::refused::answer_late;
use crate::workers::Late;
use cli::{Order, Reply, answer};
use scarce::Scarce;
use std::alloc::{Allocator, Global};
use std::io;
use std::sync::Wait;
use std::thread::Threads;

/// How often the answer is asked for as it comes.
const TIMES: u8 = 100;

/// How many workers are held back, one after the other.
const LANES: u8 = 8;

/// A lane that no program has.
pub const NO_LANE: u8 = 64;

/// Whether two replies have the same bytes and the same status.
fn same<A: Allocator>(one: &Reply<Global>, other: &Reply<A>) -> bool {
    one.status == other.status && one.bytes.as_slice() == other.bytes.as_slice()
}

/// Prints the reply, if it is the same on every run, and with each worker held back in turn.
pub fn schedules<R: Print + AllocGlobal + Wait + Threads + Sync>(
    rt: &R,
    text: &[u8],
    order: Order,
) -> io::Result<()> {
    let reply = answer(rt, text, order);
    for _time in 0..TIMES {
        if !same(&reply, &answer(rt, text, order)) {
            return rt.print("another reply\n");
        }
    }
    let scarce = Scarce::refusing(rt.alloc(), 0);
    for lane in 0..LANES {
        if !same(
            &reply,
            &answer_late(rt, &scarce, text, order, Late { lane }),
        ) {
            return rt.print("another reply, where a worker was kept back\n");
        }
    }
    print_reply(rt, &reply)
}
