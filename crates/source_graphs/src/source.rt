//! The graphs of a checked program and its asserts.

ghost use Rattle.std.specs.Prelude.{IfOk, IfErr};
ghost use Rattle.checked.specs.Programs.{checked_tree};
ghost use Rattle.source_graphs.specs.Source.{AreOfSource, IsCause};

use crate::no_graphs::NoGraphs;
use crate::width::wide_procedure;
use checked::Checked;
use flow_graph::{Asserts, Graphs, draw, find_asserts};
use std::alloc::Allocator;

/// What is known of the procedures of a program, by number.
#[derive(Drop)]
pub struct SourceGraphs<A: Allocator> {
    /// Their flow graphs.
    pub graphs: Graphs<A>,
    /// Their asserts.
    pub asserts: Asserts<A>,
}

/// The flow graphs of the procedures of a checked program, as it was written, and their asserts. `TooWide` comes if and
/// only if some procedure has more than 128 places, and takes no memory; `Memory` if an allocation was refused.
pub fn source_graphs<N: Allocator, A: Allocator + Clone>(
    alloc: &A,
    checked: &Checked<N>,
) -> Result<SourceGraphs<A>, NoGraphs>
    // They are those of the program, whose statements are numbered in text order.
    ensures drawn { IfOk result (AreOfSource (checked_tree checked.now)) }
    // The cause is that some procedure is too wide, or that memory ran out, and then none is.
    ensures cause { IfErr result (IsCause (checked_tree checked.now)) }
{
    if wide_procedure(checked).is_some() {
        return Err(NoGraphs::TooWide);
    }
    let graphs = draw(alloc, checked.program())?;
    let asserts = find_asserts(alloc, checked.program())?;
    Ok(SourceGraphs { graphs, asserts })
}
