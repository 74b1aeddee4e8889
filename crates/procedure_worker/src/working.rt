//! The whole work of one worker.
ghost use Rattle.std.specs.Prelude.{◌<◌, length};
ghost use Rattle.language.specs.Step.{Program};
ghost use Rattle.flow_graph.specs.Drawn.{graphs_of};
ghost use Rattle.flow_graph.specs.Graphs.{AreDrawnFrom};
ghost use Rattle.procedure_worker.specs.Works.{begun_in, IsFresh, HasEnded};

use crate::desk::{Context, Desk};
use crate::gate::Gate;
use crate::outcome::Outcome;
use crate::stop::{end_of, memory_of};
use crate::worker::Worker;
use flow_graph::Graphs;
use path_sets::PathSet;
use std::alloc::Allocator;
use std::sync::Wait;
use summaries::{Due, Table};
use switchboard::{Board, Taken};

/// Works for a procedure: takes one message of its mailbox, posts all that its table then owes, completes it and takes
/// the next, until the board is closed, or aborted by another pass, or by this one for a cause of its own. It fails
/// for lack of memory only if memory was refused to its table or to a post, which its outcome shows; if its table has
/// failed, it fails for the table's fault. While the mailbox is empty it looks for visits of it, and sleeps if there is
/// none. The pass must be that of the procedure, as the board gave it, and the board must be one of the graphs of the
/// context that the starter's message opened. The table is in memory of `alloc`.
pub fn work<'c, 'g, R, G, H, A, B, S, K>(
    context: &'c Context<'c, 'g, R, G, B, K>,
    alloc: A,
    pass: B::Pass,
    procedure: u8,
) -> (B::Pass, Outcome<'g, G, A, S>)
where
    R: Wait,
    G: Allocator,
    H: Allocator,
    A: Allocator + Copy,
    B: Board<Due, Graphs<G>, H>,
    S: PathSet<A>,
    K: Gate,
    requires drawn { (p : Program) × AreDrawnFrom p (graphs_of context.now.graphs.now) }
    requires near { procedure < length (graphs_of context.now.graphs.now) }
    requires fresh { IsFresh (begun_in B.identity context.now procedure) (B.sight pass) }
    ensures { HasEnded (begun_in B.identity context.now procedure) S.members
        (B.sight result.0) result.1 }
{
    let desk = Desk {
        context,
        number: procedure,
    };
    let mut worker: Worker<'g, B::Pass, G, A, S> = Worker {
        pass,
        table: Table::new(alloc, context.graphs, procedure, context.limit),
        taken: 0,
        posted: 0,
        empty: 0,
    };
    // It begins as behind a take that found none.
    let mut taken = Taken::Empty;
    for _ in context.rt.forever() {
        match worker.step(&desk, taken) {
            Ok(next) => taken = next,
            Err(finish) => {
                let Worker {
                    pass,
                    table,
                    taken: _,
                    posted: _,
                    empty: _,
                } = worker;
                let outcome = Outcome {
                    table: Some(table),
                    end: end_of(finish),
                    out_of_memory: memory_of(finish),
                };
                return (pass, outcome);
            }
        }
    }
    unreachable!()
}
