//! Declared names with two underscores in a row, which are kept for the rewriting.

ghost use Rattle.std.specs.Prelude.{◌≡◌, IfOk};
ghost use Rattle.trees.specs.Trees.{proc_of, procs_of, tree_of};
ghost use Rattle.scopes.specs.Find.{Finds};
ghost use Rattle.checked.specs.Faults.{ReservedIn, Reserved};

use crate::labels::labels;
use crate::names::{earlier, lend, own_names, reserved};
use crate::search::{Answer, try_earliest};
use crate::statements::statements;
use crate::twice::proc_names;
use std::alloc::Allocator;
use trees::{Proc, Program};

/// The least offset of a formal, a local or a label of a procedure with two underscores in a row.
pub(crate) fn reserved_in<A: Allocator + Copy>(alloc: &A, proc: &Proc<A>) -> Answer
    ensures { IfOk result (λ r. Finds (λ n. ReservedIn n (proc_of proc.now)) r) }
{
    let own = own_names(alloc, proc)?;
    let first = reserved(&own);
    let stmts = statements(alloc, proc)?;
    let labels = labels(alloc, &stmts)?;
    let second = reserved(&labels);
    Ok(earlier(first, second))
}

/// The least offset of a declared variable, procedure or label with two underscores in a row; nothing if none has. An
/// error is a refused allocation.
pub(crate) fn first_reserved<A: Allocator + Copy>(alloc: &A, program: &Program<A>) -> Answer
    ensures { IfOk result (λ r. Finds (λ n. Reserved (tree_of program.now) n) r) }
{
    let globals = lend(&program.globals, Vec::new(*alloc))?;
    let first = reserved(&globals);
    let called = proc_names(alloc, &program.procs)?;
    let second = reserved(&called);
    let third = try_earliest(&program.procs, |proc| reserved_in(alloc, proc))?;
    let later = earlier(second, third);
    Ok(earlier(first, later))
}
