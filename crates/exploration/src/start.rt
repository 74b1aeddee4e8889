//! The first tuple.

ghost use Rattle.std.specs.Prelude.{◌≡◌, ◌<◌, ◌≤◌, ◌+◌, IfOk, OnOk, length};
ghost use Rattle.checked.specs.Programs.{checked_tree};
ghost use Rattle.language.specs.Sequential.{sequential_of};
ghost use Rattle.flow_graph.specs.Drawn.{graphs_of};
ghost use Rattle.stack_sets.specs.Nodes.{IsPrefix, nodes_in};
ghost use Rattle.exploration.specs.Ends.{HasBegun};
ghost use Rattle.exploration.specs.Limits.{most_of};
ghost use Rattle.exploration.specs.Searched.{KnowsWithin, threads_by};
ghost use Rattle.exploration.specs.Starts.{AreBegun, IsAlone, IsFirstTuple, first_stack};

use crate::covers::Covers;
use crate::kept_turns::KeptTurns;
use crate::limits::WorkLimit;
use crate::searching::Search;
use crate::tuple::{MOST_THREADS, Tuple, Tuples, meet};
use checked::Checked;
use flow_graph::Graphs;
use indexmap::IndexSet;
use source_graphs::SourceGraphs;
use stack_sets::{BOTTOM, Head, NoTurn, Node, StackSets};
use std::alloc::{AllocError, Allocator};
use trees::number_of_procedure;
use turns::NumberedFrame;

/// The procedure of each thread, by number.
pub(crate) fn thread_procedures<N: Allocator, A: Allocator + Copy>(
    alloc: A,
    checked: &Checked<N>,
) -> Result<Vec<u8, A>, AllocError>
    ensures threads { IfOk result
        (λ procedures. procedures.items ≡ (sequential_of (checked_tree checked.now)).threads) }
    ensures few { IfOk result (λ procedures. length procedures.items ≤ 8) }
{
    let program = checked.program();
    let mut procedures = Vec::new(alloc);
    for thread in &program.threads {
        let number = number_of_procedure(program.procs.as_slice(), thread.name.text.as_str());
        procedures.push(number as u8)?;
    }
    Ok(procedures)
}

/// The number of a node of the stack that a thread of a procedure has before its first step, and of no other.
fn first_node<G: Allocator, A: Allocator + Copy>(
    alloc: A,
    graphs: &Graphs<G>,
    sets: &mut StackSets<A>,
    procedure: u8,
) -> Result<usize, AllocError>
    requires { AreBegun (nodes_in sets.old) }
    ensures begun { OnOk result (AreBegun (nodes_in sets.new)) }
    ensures keeps { IsPrefix (nodes_in sets.old) (nodes_in sets.new) }
    ensures node { IfOk result
        (λ n. IsAlone (nodes_in sets.new) n (first_stack (graphs_of graphs.now) procedure)) }
{
    if (procedure as usize) >= graphs.len() {
        return Ok(BOTTOM);
    }
    let frame = NumberedFrame {
        procedure,
        point: graphs.graph(procedure).start(),
        places: 0,
    };
    let mut heads = Vec::new(alloc);
    heads.push(Head {
        frame,
        below: BOTTOM,
    })?;
    let node = Node { bare: false, heads };
    Ok(sets.keep(node)?)
}

/// The tuple before the first turn.
fn first_tuple<G: Allocator, A: Allocator + Copy>(
    alloc: A,
    graphs: &Graphs<G>,
    sets: &mut StackSets<A>,
    procedures: &[u8],
) -> Result<Tuple, NoTurn>
    requires few { length procedures.now ≤ 8 }
    requires begun { AreBegun (nodes_in sets.old) }
    ensures begun { OnOk result (AreBegun (nodes_in sets.new)) }
    ensures tuple { IfOk result
        (IsFirstTuple (nodes_in sets.new) (graphs_of graphs.now) procedures.now) }
{
    let mut nodes = [0u32; MOST_THREADS];
    for i in 0..procedures.len() {
        let node = first_node(alloc, graphs, sets, procedures[i])?;
        nodes[i] = u32::try_from(node).ok().ok_or(NoTurn::Memory)?;
    }
    Ok(Tuple {
        globals: 0,
        thread: 0,
        nodes,
    })
}

impl<A: Allocator + Copy> Search<A> {
    /// A search before the first turn.
    pub(crate) fn new<G: Allocator>(
        alloc: A,
        source: &SourceGraphs<G>,
        procedures: &[u8],
        limit: WorkLimit,
    ) -> Result<Self, NoTurn>
        requires some { 0 < length procedures.now }
        requires few { length procedures.now ≤ 8 }
        ensures begun { IfOk result (HasBegun (threads_by source.now procedures.now)) }
        ensures known { IfOk result KnowsWithin }
        ensures work { IfOk result
            (λ search. search.left + length search.tuples.keys ≤ most_of limit) }
    {
        let mut sets = StackSets::new(alloc)?;
        let mut tuples: Tuples<A> = IndexSet::new(alloc);
        let mut left = u64::from(limit.most());
        let first = first_tuple(alloc, &source.graphs, &mut sets, procedures)?;
        meet(&mut tuples, &mut left, first)?;
        Ok(Search {
            sets,
            turns: KeptTurns::new(alloc),
            tuples,
            covers: Covers::new(alloc),
            expanded: 0,
            left,
        })
    }
}
