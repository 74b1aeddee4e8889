//! The summaries of whole programs.

ghost use Rattle.std.specs.Prelude.{◌≡◌};
ghost use Rattle.language.specs.Sequential.{sequential_of};
ghost use Rattle.language.specs.Step.{Program};
ghost use Rattle.trees.specs.Trees.{tree_of};

use crate::sequential::rewritten;
use crate::sweeps::write_swept;
use cases::{Outcome, Sweep};
use flow_graph::graphs;
use language::Word;
use path_sets::{OrderedEdges, PathSet};
use resolved::Sequential;
use scarce::Scarce;
use std::alloc::{AllocError, Allocator, Global};
use summaries::{EdgeLimit, NoVerdict, Pair, Summaries, tabulate};

/// The summaries of a sequential program by its flow graphs; the path edges are kept in sets of the type `S`.
fn by_graphs<A: Allocator + Copy, S: PathSet<A>>(
    alloc: A,
    sequential: &Sequential<Global>,
    limit: EdgeLimit,
) -> Result<Summaries<A>, NoVerdict>
    ghost program: { Program }
    requires { program ≡ sequential_of (tree_of sequential.now.program) }
{
    let graphs = graphs(&alloc, sequential)?;
    let summaries = tabulate::<_, _, S>(alloc, &graphs, limit);
    drop(graphs);
    summaries
}

/// The summaries of a sequential program with at most a given number of path edges.
fn tabulated<A: Allocator + Copy, S: PathSet<A>>(
    alloc: A,
    sequential: &Sequential<Global>,
    edges: u64,
) -> Result<Summaries<A>, NoVerdict> {
    match u32::try_from(edges).ok().and_then(EdgeLimit::new) {
        Some(limit) => by_graphs::<_, S>(alloc, sequential, limit),
        None => Err(NoVerdict::EdgeLimit(0)),
    }
}

/// Writes the summaries of a text, for rounds and path edges; or, with a sweep, whether each refused allocation leads
/// to lack of memory, and none to summaries.
pub fn summaries(
    alloc: Global,
    out: &mut String,
    numbers: (u64, &str),
    text: &str,
    sweep: Option<Sweep>,
) -> Result<(), AllocError> {
    let edges = numbers.1.parse::<u64>().unwrap_or(0);
    match (rewritten(alloc, text, numbers.0), sweep) {
        (Some(sequential), Some(sweep)) => write_refused(alloc, out, sweep, &sequential, edges),
        (Some(sequential), None) => write_summaries(alloc, out, &sequential, edges),
        (None, _) => write!(out, "not rewritten"),
    }
}

/// Writes the summaries of a sequential program.
fn write_summaries(
    alloc: Global,
    out: &mut String,
    sequential: &Sequential<Global>,
    edges: u64,
) -> Result<(), AllocError> {
    match tabulated::<_, OrderedEdges<_>>(alloc, sequential, edges) {
        Ok(summaries) => write_all(out, &summaries),
        Err(why) => write!(out, "{why:?}"),
    }
}

/// Writes what each procedure does as a whole, and whether some pair of the first is bad.
fn write_all<A: Allocator>(out: &mut String, summaries: &Summaries<A>) -> Result<(), AllocError> {
    for procedure in 0..=31u8 {
        if (procedure as usize) < summaries.len() {
            write!(out, "{procedure}: entered with")?;
            write_entries(out, summaries.entries(procedure))?;
            write_pairs(out, summaries.pairs(procedure))?;
        }
    }
    write!(out, "{}", if summaries.bad() { "bad" } else { "not bad" })
}

/// Writes valuations.
fn write_entries(out: &mut String, entries: &[Word]) -> Result<(), AllocError> {
    for entry in entries {
        write!(out, " {entry}")?;
    }
    Ok(())
}

/// Writes pairs, with a result only if it is 1.
fn write_pairs(out: &mut String, pairs: &[Pair]) -> Result<(), AllocError> {
    write!(out, "; pairs")?;
    for pair in pairs {
        let result = if pair.r { "-1" } else { "" };
        write!(out, " {}-{}{result}", pair.a, pair.b)?;
    }
    write!(out, "\n")
}

/// The outcome of a tabulation: no summaries if memory is refused.
fn outcome(scarce: &Scarce<Global>, sequential: &Sequential<Global>, edges: u64) -> Outcome {
    match tabulated::<_, OrderedEdges<_>>(scarce, sequential, edges) {
        Err(NoVerdict::Memory) => Outcome::Memory,
        Ok(_) if !scarce.refused() => Outcome::Whole,
        _ => Outcome::Other,
    }
}

/// Writes the outcome of a tabulation with allocations refused in turn.
fn write_refused(
    alloc: Global,
    out: &mut String,
    sweep: Sweep,
    sequential: &Sequential<Global>,
    edges: u64,
) -> Result<(), AllocError> {
    let swept = sweep.of(alloc, |scarce: &Scarce<Global>| {
        outcome(scarce, sequential, edges)
    });
    write_swept(out, swept, "memory, and then summaries")
}
