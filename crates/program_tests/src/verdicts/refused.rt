//! Each allocation refused in turn.

use crate::scarce_runtime::ScarceRuntime;
use crate::verdicts::case::print_reply;
use crate::verdicts::schedules::NO_LANE;
use crate::workers::Late;
use cases::{Outcome, Sweep, Swept};
use cli::{Order, Reply, answer, answer_with};
use flow_graph::Graphs;
use path_sets::{DiagramEdges, OrderedEdges};
use procedure_worker::Open;
use scarce::Scarce;
use std::alloc::Global;
use std::io;
use std::sync::Wait;
use std::thread::Threads;
use summaries::Due;
use switchboard::{LockPerBox, OneLock};

/// The answer to a text if the memory is scarce.
pub fn answer_without<'a, R: Wait + Threads + Sync>(
    rt: &'a R,
    scarce: &'a Scarce<Global>,
    text: &[u8],
    order: Order,
) -> Reply<&'a Scarce<Global>> {
    answer(&ScarceRuntime { rt, scarce }, text, order)
}

type OfScarce<'a> = &'a Scarce<Global>;

type PerBox<'a> = LockPerBox<Due, Graphs<OfScarce<'a>>, OfScarce<'a>>;

type One<'a> = OneLock<Due, Graphs<OfScarce<'a>>, OfScarce<'a>>;

/// The same over a board with one lock and ordered sets, if the worker of a lane is held back.
pub fn answer_late<'a, R: Wait + Threads + Sync>(
    rt: &'a R,
    scarce: &'a Scarce<Global>,
    text: &[u8],
    order: Order,
    gate: Late,
) -> Reply<&'a Scarce<Global>> {
    answer_with::<R, One<'a>, OrderedEdges<OfScarce<'a>>, Late>(
        rt, scarce, scarce, text, order, &gate,
    )
}

/// The same over one of the four pairs of board and set, of which the first is the program's.
fn answer_over<'a, R: Wait + Threads + Sync>(
    rt: &'a R,
    scarce: &'a Scarce<Global>,
    pair: u8,
    text: &[u8],
    order: Order,
) -> Reply<&'a Scarce<Global>> {
    match pair {
        0 => answer_without(rt, scarce, text, order),
        1 => answer_with::<R, PerBox<'a>, OrderedEdges<OfScarce<'a>>, Open>(
            rt, scarce, scarce, text, order, &Open,
        ),
        2 => answer_late(rt, scarce, text, order, Late { lane: NO_LANE }),
        _ => answer_with::<R, One<'a>, DiagramEdges<OfScarce<'a>>, Open>(
            rt, scarce, scarce, text, order, &Open,
        ),
    }
}

/// The outcome over a pair of board and set if the memory is scarce.
fn outcome<R: Wait + Threads + Sync>(
    rt: &R,
    scarce: &Scarce<Global>,
    pair: u8,
    text: &[u8],
    order: Order,
    whole: &Reply<Global>,
) -> Outcome {
    let reply = answer_over(rt, scarce, pair, text, order);
    match reply.bytes.as_slice() {
        bytes if reply.status == whole.status && bytes == whole.bytes.as_slice() => Outcome::Whole,
        b"no verdict: memory\n" if reply.status == 3 => Outcome::Memory,
        _ => Outcome::Other,
    }
}

/// Prints the reply without refusal, if over the first `pairs` pairs of board and set each run of the sweep leaves it
/// or leads to `no verdict: memory`.
pub fn in_turn<R: Print + AllocGlobal + Wait + Threads + Sync>(
    rt: &R,
    sweep: Sweep,
    pairs: u8,
    text: &[u8],
    order: Order,
) -> io::Result<()> {
    let reply = answer(rt, text, order);
    for pair in 0..pairs {
        let swept = sweep.of(rt.alloc(), |scarce: &Scarce<Global>| {
            outcome(rt, scarce, pair, text, order, &reply)
        });
        if !matches!(swept, Swept::Kept(_)) {
            return println!(rt; "pair {pair}: {swept:?}");
        }
    }
    print_reply(rt, &reply)
}

/// Prints the reply, if it is the same over each pair of board and set.
pub fn over_pairs<R: Print + AllocGlobal + Wait + Threads + Sync>(
    rt: &R,
    text: &[u8],
    order: Order,
) -> io::Result<()> {
    let reply = answer(rt, text, order);
    for pair in 1..4 {
        let scarce = Scarce::refusing(rt.alloc(), 0);
        if outcome(rt, &scarce, pair, text, order, &reply) != Outcome::Whole {
            return rt.print("another reply\n");
        }
    }
    print_reply(rt, &reply)
}
