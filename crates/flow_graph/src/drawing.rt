//! The flow graphs of a sequential program.

ghost use Rattle.std.specs.Prelude.{◌≡◌, ◌≤◌, length, IfOk, codes};
ghost use Rattle.language.specs.Resolve.{number_of};
ghost use Rattle.language.specs.Sequential.{sequential_of};
ghost use Rattle.resolved.specs.Narrow.{AllNarrow};
ghost use Rattle.resolved.specs.Programs.{sequential_tree};
ghost use Rattle.resolved.specs.Resolves.{Resolves};
ghost use Rattle.trees.specs.Trees.{tree_of};
ghost use Rattle.flow_graph.specs.Drawing.{names_in, drawn_routine, IsGraphOf, ScopeHasRoom};
ghost use Rattle.flow_graph.specs.Drawn.{bad_of, graphs_of};
ghost use Rattle.flow_graph.specs.Graphs.{AreDrawnFrom};
ghost use Rattle.flow_graph.specs.Located.{given_mask};

use crate::flow::Flow;
use crate::graph::{Graph, Graphs};
use crate::low_bits::LowBits;
use crate::lowering::{Lowering, first_point};
use crate::put::{push, put};
use crate::scope::Scope;
use language::{EXIT, Word};
use resolved::Sequential;
use std::alloc::{AllocError, Allocator};
use trees::{Proc, Program, give_value, number_of_name};

/// The bit of a procedure's result, alone; 0 if it gives none.
fn mask_of_result<N: Allocator>(program: &Program<N>, proc: &Proc<N>) -> Word
    requires { ScopeHasRoom program.now proc.now }
    ensures { result ≡ given_mask (length (names_in program.now proc.now).globals)
        (drawn_routine program.now proc.now) }
{
    if give_value(&proc.body) {
        let places = proc.formals.len() + proc.locals.len();
        1 << (program.globals.len() + places)
    } else {
        0
    }
}

/// The flow graph of one procedure of a program.
fn graph<N: Allocator, A: Allocator + Clone>(
    alloc: &A,
    program: &Program<N>,
    proc: &Proc<N>,
) -> Result<Graph<A>, AllocError>
    requires { ScopeHasRoom program.now proc.now }
    ensures { IfOk result (λ g. IsGraphOf program.now proc.now g) }
{
    let body = proc.body.as_slice();
    let result = mask_of_result(program, proc);
    let lowering = Lowering {
        alloc,
        scope: Scope {
            globals: program.globals.as_slice(),
            formals: proc.formals.as_slice(),
            locals: proc.locals.as_slice(),
            procedures: program.procs.as_slice(),
        },
        body,
        result,
    };
    let mut flows = Vec::new(alloc.clone()?);
    push(Flow::Return, &mut flows)?;
    lowering.block(body, EXIT, &mut flows)?;
    Ok(Graph {
        flows,
        start: first_point(body, 1, EXIT),
        globals: LowBits::new(program.globals.len() as u8),
        result,
    })
}

/// The flow graphs of the procedures of a program whose names all resolve, of at most 32 procedures with at most 128
/// places each, by number. Returns an error if memory is refused.
pub fn draw<N: Allocator, A: Allocator + Clone>(
    alloc: &A,
    program: &Program<N>,
) -> Result<Graphs<A>, AllocError>
    requires resolves { Resolves (tree_of program.now) }
    requires narrow { AllNarrow (tree_of program.now) }
    requires few { length program.now.procs.items ≤ 32 }
    ensures graphs { IfOk result
        (λ gs. AreDrawnFrom (sequential_of (tree_of program.now)) (graphs_of gs)) }
    ensures bad { IfOk result
        (λ gs. bad_of gs ≡ number_of (codes "bad__") (tree_of program.now).globals) }
{
    let mut graphs = Vec::new(alloc.clone()?);
    for proc in &program.procs {
        put(graph(alloc, program, proc), &mut graphs)?;
    }
    let bad = number_of_name(&program.globals, "bad__");
    Ok(Graphs { graphs, bad })
}

/// The flow graphs of the procedures of a sequential program, by number. Returns an error if memory is refused.
pub fn graphs<N: Allocator, A: Allocator + Clone>(
    alloc: &A,
    sequential: &Sequential<N>,
) -> Result<Graphs<A>, AllocError>
    ensures graphs { IfOk result
        (λ gs. AreDrawnFrom (sequential_of (sequential_tree sequential.now)) (graphs_of gs)) }
    ensures bad { IfOk result
        (λ gs. bad_of gs ≡ number_of (codes "bad__") (sequential_tree sequential.now).globals) }
{
    draw(alloc, sequential.program())
}
