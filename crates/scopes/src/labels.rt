//! Labels: `goto` without one, and labels that are defined twice.

ghost use Rattle.std.specs.Prelude.{◌≡◌, ◌++◌, ◌⊎◌, IfOk};
ghost use Rattle.trees.specs.Trees.{proc_of, tree_of};
ghost use Rattle.scopes.specs.Find.{Finds};
ghost use Rattle.resolved.specs.Statements.{lent, lent_statements, statement_of, labels_of};
ghost use Rattle.checked.specs.Faults.{GoesNowhere, MislabelledIn, BadLabel};

use crate::known::{Known, repeated};
use crate::names::earlier;
use crate::search::{Answer, earliest, try_earliest};
use crate::statements::statements;
use std::alloc::{AllocError, Allocator};
use trees::{Name, Proc, Program, Stmt};

/// References to the labels that statements define, in order.
pub(crate) fn labels<'a, A: Allocator + Copy>(
    alloc: &A,
    stmts: &[&'a Stmt<A>],
) -> Result<Vec<&'a Name<A>, A>, AllocError>
    ensures { IfOk result (λ v. lent v.items ≡ labels_of (lent_statements stmts.now)) }
{
    let mut list = Vec::new(*alloc);
    for stmt in stmts {
        if let Some(label) = &stmt.label {
            list.push(label)?;
        }
    }
    Ok(list)
}

/// The offset of the name in a `goto`, if it is not one of the labels.
pub(crate) fn lost<A: Allocator + Copy>(labels: &Known<A>, stmt: &Stmt<A>) -> Option<u32>
    ensures { Finds
        (λ n. GoesNowhere (lent labels.now.names.items) n (statement_of stmt.now).head) result }
{
    labels.unknown(stmt.core.jump()?)
}

/// The least offset of a label of a procedure that is defined twice, or of the name of a `goto` that is none.
pub(crate) fn mislabelled<A: Allocator + Copy>(alloc: &A, proc: &Proc<A>) -> Answer
    ensures { IfOk result (λ r. Finds (λ n. MislabelledIn n (proc_of proc.now)) r) }
{
    let stmts = statements(alloc, proc)?;
    let labels = labels(alloc, &stmts)?;
    let second = repeated(*alloc, &labels)?;
    let known = Known::new(*alloc, labels)?;
    let first = earliest(&stmts, |stmt| lost(&known, stmt));
    Ok(earlier(first, second))
}

/// The least offset of the name in a `goto` that is not a label of its procedure, or of a label that is defined
/// again; nothing if there is none. An error is a refused allocation.
pub(crate) fn first_bad_label<A: Allocator + Copy>(alloc: &A, program: &Program<A>) -> Answer
    ensures { IfOk result (λ r. Finds (λ n. BadLabel (tree_of program.now) n) r) }
{
    try_earliest(&program.procs, |proc| mislabelled(alloc, proc))
}
