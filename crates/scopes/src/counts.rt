//! Assignments and calls whose two sides differ in number.

ghost use Rattle.std.specs.Prelude.{◌≡◌, ◌≢◌, IfOk, length};
ghost use Rattle.trees.specs.Trees.{names_of, proc_of, procs_of, tree_of};
ghost use Rattle.scopes.specs.Find.{Finds};
ghost use Rattle.resolved.specs.Statements.{statement_of};
ghost use Rattle.checked.specs.Faults.{first_at, MiscountsSides, MiscountsArguments, Miscounts};
ghost use Rattle.checked.specs.Faults.{MiscountsIn, WrongCount};

use crate::names::earlier;
use crate::search::{Answer, earliest, try_earliest};
use crate::statements::statements;
use crate::undeclared::find;
use std::alloc::Allocator;
use trees::{Name, Proc, Program, Stmt};

/// Where the targets of a statement begin; if there are none, where the statement begins.
pub(crate) fn start<A: Allocator>(stmt: &Stmt<A>, targets: &[Name<A>]) -> u32
    ensures { result ≡ first_at stmt.now.at (names_of targets.now) }
{
    match targets.first() {
        Some(target) => target.at,
        None => stmt.at,
    }
}

/// The offset `at`, if the two numbers differ.
#[tactic(auto, using(crate::proofs::Found::here, crate::proofs::Found::not_here))]
pub(crate) fn unequal(at: u32, left: usize, right: usize) -> Option<u32>
    ensures { Finds (λ n. (at ≡ n) × (left ≢ right)) result }
{
    if left == right { None } else { Some(at) }
}

/// The offset of an assignment's first target, if its targets and right sides differ in number.
pub(crate) fn sides_miscounted<A: Allocator>(stmt: &Stmt<A>) -> Option<u32>
    ensures { Finds (λ n. MiscountsSides n (statement_of stmt.now)) result }
{
    if stmt.core.assigns() {
        let targets = stmt.core.targets();
        let sides = stmt.core.sides();
        unequal(start(stmt, targets), targets.len(), sides.len())
    } else {
        None
    }
}

/// The offset of a called name, if the arguments and the formals of what is called differ in number.
pub(crate) fn arguments_miscounted<A: Allocator>(procs: &[Proc<A>], stmt: &Stmt<A>) -> Option<u32>
    ensures { Finds
        (λ n. MiscountsArguments (procs_of procs.now) n (statement_of stmt.now).head) result }
{
    let callee = stmt.core.callee()?;
    let proc = find(procs, callee)?;
    unequal(callee.at, proc.formals.len(), stmt.core.arguments().len())
}

/// The offset of the first target or of the called name, if the two sides of a statement differ in number.
pub(crate) fn miscounted<A: Allocator>(procs: &[Proc<A>], stmt: &Stmt<A>) -> Option<u32>
    ensures { Finds (λ n. Miscounts (procs_of procs.now) n (statement_of stmt.now)) result }
{
    let first = sides_miscounted(stmt);
    let second = arguments_miscounted(procs, stmt);
    earlier(first, second)
}

/// The same for a procedure.
pub(crate) fn miscounted_in<A: Allocator + Copy>(
    alloc: &A,
    procs: &[Proc<A>],
    proc: &Proc<A>,
) -> Answer
    ensures { IfOk result (λ r. Finds (MiscountsIn (procs_of procs.now) (proc_of proc.now)) r) }
{
    let stmts = statements(alloc, proc)?;
    Ok(earliest(&stmts, |stmt| miscounted(procs, stmt)))
}

/// The least offset of an assignment's first target, or of a called name, whose two sides differ in number; nothing
/// if none do. An error is a refused allocation.
pub(crate) fn first_wrong_count<A: Allocator + Copy>(alloc: &A, program: &Program<A>) -> Answer
    ensures { IfOk result (λ r. Finds (λ n. WrongCount (tree_of program.now) n) r) }
{
    let procs = program.procs.as_slice();
    try_earliest(procs, |proc| miscounted_in(alloc, procs, proc))
}
