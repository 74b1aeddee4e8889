//! The rewriting of a program.

ghost use Rattle.std.specs.Prelude.{◌≡◌, [], ◌∷◌, IfOk, IfErr, codes};
ghost use Rattle.grammar.specs.InGrammar.{InGrammar};
ghost use Rattle.trees.specs.Trees.{threads_of, tree_of};
ghost use Rattle.round_rewrite.specs.Law.{KeepsTree};
ghost use Rattle.round_rewrite.specs.Names.{fresh_name, rewritten_for};
ghost use Rattle.round_rewrite.specs.Narrow.{IsNarrowFor};
ghost use Rattle.round_rewrite.specs.Programs.{IsFaultOf, count_of};
ghost use Rattle.resolved.specs.Programs.{sequential_tree};
ghost use Rattle.checked.specs.Programs.{checked_tree};

use crate::fault::RewriteFault;
use crate::globals::globals;
use crate::lists::put;
use crate::names::fixed;
use crate::procedures::procedures;
use crate::rounds::Rounds;
use crate::width::is_narrow;
use checked::Checked;
use resolved::Sequential;
use std::alloc::{AllocError, Allocator};
use trees::{Program, Thread};

/// The one thread line: that of the first procedure.
fn threads<A: Allocator + Copy>(alloc: &A) -> Result<Vec<Thread<A>, A>, AllocError>
    ensures { IfOk result
        (λ v. threads_of v.items ≡ record { at = 0; name = fresh_name (codes "main__") } ∷ []) }
{
    let mut list = Vec::new(*alloc);
    let name = fixed(*alloc, "main__")?;
    put(&mut list, Thread { at: 0, name })?;
    Ok(list)
}

/// The rewritten program of a program that is narrow enough.
fn narrow_rewritten<N: Allocator, A: Allocator + Copy>(
    alloc: &A,
    rounds: Rounds,
    program: &Program<N>,
) -> Result<Program<A>, AllocError>
    requires { IsNarrowFor (count_of rounds) (tree_of program.now) }
    ensures { IfOk result (λ p. tree_of p ≡ rewritten_for (count_of rounds) (tree_of program.now)) }
{
    let globals = globals(alloc, rounds, &program.globals)?;
    let procs = procedures(alloc, rounds, program)?;
    let threads = threads(alloc)?;
    Ok(Program {
        globals,
        procs,
        threads,
    })
}

/// Rewrites a checked program for a number of rounds into a sequential program. `TooWide` comes if and only if
/// some procedure of it has more than 128 places, and takes no memory; `Memory` if an allocation was refused.
pub fn rewrite<N: Allocator, A: Allocator + Copy>(
    alloc: &A,
    checked: &Checked<N>,
    rounds: Rounds,
) -> Result<Sequential<A>, RewriteFault>
    // What is returned is the program of the table.
    ensures rewritten { IfOk result
        (λ s. sequential_tree s ≡ rewritten_for (count_of rounds) (checked_tree checked.now)) }
    // The source is unsafe within the rounds if and only if some pair of `main__` of that program has
    // `bad__`.
    ensures keeps { IfOk result (λ s. KeepsTree (count_of rounds) (checked_tree checked.now)) }
    // It is a tree of the grammar if the source is.
    ensures grammar { InGrammar (checked_tree checked.now)
        → IfOk result (λ s. InGrammar (sequential_tree s)) }
    // A fault is that the program is too wide, and then it is, or that memory ran out, and then it is not.
    ensures fault { IfErr result (IsFaultOf (count_of rounds) (checked_tree checked.now)) }
{
    let source = checked.program();
    if !is_narrow(alloc, rounds, source) {
        return Err(RewriteFault::TooWide);
    }
    let program = narrow_rewritten(alloc, rounds, source)?;
    Ok(Sequential { program })
}
