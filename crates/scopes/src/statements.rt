//! The statements of a block as one list.

ghost use Rattle.std.specs.Prelude.{◌≡◌, ◌++◌, ◌∷◌, IfOk};
ghost use Rattle.trees.specs.Trees.{block_of, deed_of, proc_of};
ghost use Rattle.resolved.specs.Statements.{lent_statements, statement_of, statements_of, inside};

use std::alloc::{AllocError, Allocator};
use trees::{Proc, Stmt};

/// References to the statements of a procedure, in the order of the text.
pub(crate) fn statements<'a, A: Allocator + Copy>(
    alloc: &A,
    proc: &'a Proc<A>,
) -> Result<Vec<&'a Stmt<A>, A>, AllocError>
    ensures { IfOk result (λ v. lent_statements v.items ≡ statements_of (proc_of proc.now).body) }
{
    flatten(&proc.body, Vec::new(*alloc))
}

/// Appends references to the statements of a block, in the order of the text, to those that are there.
#[cycle(flattening)]
pub(crate) fn flatten<'a, A: Allocator>(
    stmts: &'a [Stmt<A>],
    into: Vec<&'a Stmt<A>, A>,
) -> Result<Vec<&'a Stmt<A>, A>, AllocError>
    ensures { IfOk result (λ v. lent_statements v.items
        ≡ lent_statements into.entry.items ++ statements_of (block_of stmts.now)) }
{
    let mut list = into;
    for stmt in stmts {
        list = flatten_one(stmt, list)?;
    }
    Ok(list)
}

/// The same for one statement and those that it holds.
#[cycle(flattening)]
fn flatten_one<'a, A: Allocator>(
    stmt: &'a Stmt<A>,
    into: Vec<&'a Stmt<A>, A>,
) -> Result<Vec<&'a Stmt<A>, A>, AllocError>
    ensures { IfOk result (λ v. lent_statements v.items
        ≡ lent_statements into.entry.items
        ++ (statement_of stmt.now ∷ inside (deed_of stmt.now.core))) }
{
    let mut list = into;
    list.push(stmt)?;
    let (first, second) = stmt.core.inside();
    list = flatten(first, list)?;
    flatten(second, list)
}
