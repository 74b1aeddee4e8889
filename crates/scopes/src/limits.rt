//! More procedures, thread lines or statements than there may be.

ghost use Rattle.std.specs.Prelude.{◌≡◌, ◌++◌, IfOk, slice_get};
ghost use Rattle.trees.specs.Trees.{procs_of, threads_of, tree_of};
ghost use Rattle.scopes.specs.Find.{Finds};
ghost use Rattle.resolved.specs.Statements.{lent_statements, statements_of_all};
ghost use Rattle.resolved.specs.There.{IsThere};
ghost use Rattle.checked.specs.Faults.{TooMany};
ghost use Rattle.checked.specs.Limits.{most_procedures, most_statements, most_threads};

use crate::names::earlier;
use crate::search::Answer;
use crate::statements::flatten;
use std::alloc::{AllocError, Allocator};
use trees::{Proc, Program, Stmt, Thread};

/// How many procedures a program has at most, which `specs/Limits.antt` has for contracts, as the next two.
pub const MOST_PROCEDURES: usize = 31;

/// How many thread lines.
pub const MOST_THREADS: usize = 8;

/// How many statements, over all procedures.
pub const MOST_STATEMENTS: usize = 1000;

/// The offset of the name of the first procedure too many.
pub(crate) fn procedure_too_many<A: Allocator>(procs: &[Proc<A>]) -> Option<u32>
    ensures { Finds
        (λ n. IsThere (slice_get (procs_of procs.now) most_procedures) (λ p. p.name.at ≡ n))
        result }
{
    match procs.get(MOST_PROCEDURES) {
        Some(proc) => Some(proc.name.at),
        None => None,
    }
}

/// The offset of the first thread line too many.
pub(crate) fn thread_too_many<A: Allocator>(threads: &[Thread<A>]) -> Option<u32>
    ensures { Finds
        (λ n. IsThere (slice_get (threads_of threads.now) most_threads) (λ line. line.at ≡ n))
        result }
{
    match threads.get(MOST_THREADS) {
        Some(line) => Some(line.at),
        None => None,
    }
}

/// The offset of the first statement too many.
pub(crate) fn statement_too_many<A: Allocator>(stmts: &[&Stmt<A>]) -> Option<u32>
    ensures { Finds
        (λ n. IsThere (slice_get (lent_statements stmts.now) most_statements) (λ s. s.mark.at ≡ n))
        result }
{
    match stmts.get(MOST_STATEMENTS) {
        Some(stmt) => Some(stmt.at),
        None => None,
    }
}

/// References to the statements of procedures, in order.
pub(crate) fn all_statements<'a, A: Allocator + Copy>(
    alloc: &A,
    procs: &'a [Proc<A>],
) -> Result<Vec<&'a Stmt<A>, A>, AllocError>
    ensures { IfOk result (λ v. lent_statements v.items ≡ statements_of_all (procs_of procs.now)) }
{
    let mut list = Vec::new(*alloc);
    for proc in procs {
        list = flatten(&proc.body, list)?;
    }
    Ok(list)
}

/// The least offset of a 32nd procedure's name, of a 9th thread line or of a 1,001st statement of the whole text;
/// nothing if there is none. An error is a refused allocation.
pub(crate) fn first_too_many<A: Allocator + Copy>(alloc: &A, program: &Program<A>) -> Answer
    ensures { IfOk result (λ r. Finds (λ n. TooMany (tree_of program.now) n) r) }
{
    let stmts = all_statements(alloc, &program.procs)?;
    let first = procedure_too_many(&program.procs);
    let second = thread_too_many(&program.threads);
    let third = statement_too_many(&stmts);
    let later = earlier(second, third);
    Ok(earlier(first, later))
}
