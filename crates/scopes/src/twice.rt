//! Names that occur twice.

ghost use Rattle.std.specs.Prelude.{◌≡◌, ◌++◌, IfOk};
ghost use Rattle.language.specs.Parts.{targets_of};
ghost use Rattle.trees.specs.Trees.{proc_of, procs_of, tree_of};
ghost use Rattle.scopes.specs.Find.{Finds};
ghost use Rattle.resolved.specs.Statements.{lent, statement_of};
ghost use Rattle.checked.specs.Faults.{Repeated, IsTwiceIn, DeclaredTwice};
ghost use Rattle.resolved.specs.There.{names};

use crate::known::repeated;
use crate::names::{earlier, lend, own_names};
use crate::search::{Answer, try_earliest};
use crate::statements::statements;
use std::alloc::{AllocError, Allocator};
use trees::{Name, Proc, Program, Stmt};

/// References to the names of procedures, in order.
pub(crate) fn proc_names<'a, A: Allocator + Copy>(
    alloc: &A,
    procs: &'a [Proc<A>],
) -> Result<Vec<&'a Name<A>, A>, AllocError>
    ensures { IfOk result (λ v. lent v.items ≡ names (procs_of procs.now)) }
{
    let mut list = Vec::new(*alloc);
    for proc in procs {
        list.push(&proc.name)?;
    }
    Ok(list)
}

/// The least offset of a target that occurs again in a statement.
pub(crate) fn target_again<A: Allocator + Copy>(alloc: &A, stmt: &Stmt<A>) -> Answer
    ensures { IfOk result
        (λ r. Finds (λ n. Repeated (targets_of (statement_of stmt.now).head) n) r) }
{
    let list = lend(stmt.core.targets(), Vec::new(*alloc))?;
    repeated(*alloc, &list)
}

/// The least offset of a name that occurs again in a procedure.
pub(crate) fn twice_in<A: Allocator + Copy>(alloc: &A, proc: &Proc<A>) -> Answer
    ensures { IfOk result (λ r. Finds (λ n. IsTwiceIn (proc_of proc.now) n) r) }
{
    let own = own_names(alloc, proc)?;
    let first = repeated(*alloc, &own)?;
    let stmts = statements(alloc, proc)?;
    let second = try_earliest(&stmts, |stmt| target_again(alloc, stmt))?;
    Ok(earlier(first, second))
}

/// The least offset of a name that occurs again among the globals, the procedures, the formals and locals of
/// one procedure, or the targets of one assignment; nothing if none does. An error is a refused allocation.
pub(crate) fn first_twice<A: Allocator + Copy>(alloc: &A, program: &Program<A>) -> Answer
    ensures { IfOk result (λ r. Finds (λ n. DeclaredTwice (tree_of program.now) n) r) }
{
    let globals = lend(&program.globals, Vec::new(*alloc))?;
    let first = repeated(*alloc, &globals)?;
    let called = proc_names(alloc, &program.procs)?;
    let second = repeated(*alloc, &called)?;
    let third = try_earliest(&program.procs, |proc| twice_in(alloc, proc))?;
    let later = earlier(second, third);
    Ok(earlier(first, later))
}
