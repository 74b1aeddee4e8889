//! Variables and called procedures without a declaration.

ghost use Rattle.std.specs.Prelude.{◌≡◌, None, option_map, IfOk};
ghost use Rattle.trees.specs.Trees.{name_of, expr_of, rhs_of, proc_of, procs_of, tree_of};
ghost use Rattle.language.specs.Parts.{targets_of, arguments_of};
ghost use Rattle.checked.specs.Faults.{AnyOf, named, AnyUnknown, CallsUnknown, IsUndeclaredIn};
ghost use Rattle.checked.specs.Faults.{UndeclaredInProcedure, Undeclared};
ghost use Rattle.scopes.specs.Find.{Finds, as_list};
ghost use Rattle.resolved.specs.Statements.{lent, statement_of, used_by, variables_of};
ghost use Rattle.resolved.specs.Statements.{variables_of_side, variables_of_test};

use crate::known::Known;
use crate::names::{earlier, is_same, lend, own_names};
use crate::search::{Answer, earliest, try_earliest};
use crate::statements::statements;
use std::alloc::Allocator;
use trees::{Expr, Name, Proc, Program, Rhs, Stmt};

/// The first procedure that is named as `x` is written.
pub(crate) fn find<'a, A: Allocator>(procs: &'a [Proc<A>], x: &Name<A>) -> Option<&'a Proc<A>>
    ensures { option_map (λ p. proc_of p.now) result
        ≡ named (name_of x.now).text (procs_of procs.now) }
{
    for proc in procs {
        if is_same(x, &proc.name) {
            return Some(proc);
        }
    }
    None
}

/// The least offset of a variable of an expression that is not among those known.
pub(crate) fn in_expr<A: Allocator + Copy>(known: &Known<A>, e: &Expr<A>) -> Option<u32>
    ensures { Finds
        (AnyUnknown (lent known.now.names.items) (variables_of (expr_of e.now))) result }
{
    match e {
        Expr::Const(_) => None,
        Expr::Var(x) => known.unknown(x),
        Expr::Not(inner) => in_expr(known, inner),
        Expr::Two(_, left, right) => {
            let first = in_expr(known, left);
            let second = in_expr(known, right);
            earlier(first, second)
        }
    }
}

/// The same for a right side.
pub(crate) fn in_rhs<A: Allocator + Copy>(known: &Known<A>, rhs: &Rhs<A>) -> Option<u32>
    ensures { Finds
        (AnyUnknown (lent known.now.names.items) (variables_of_side (rhs_of rhs.now))) result }
{
    match rhs {
        Rhs::Any => None,
        Rhs::Value(e) => in_expr(known, e),
    }
}

/// The same for an optional right side.
pub(crate) fn in_test<A: Allocator + Copy>(known: &Known<A>, test: Option<&Rhs<A>>) -> Option<u32>
    ensures { Finds
        (AnyUnknown (lent known.now.names.items)
        (variables_of_test (option_map (λ r. rhs_of r.now) test.entry))) result }
{
    in_rhs(known, test?)
}

/// The same for an optional variable.
pub(crate) fn in_receiver<A: Allocator + Copy>(
    known: &Known<A>,
    receiver: Option<&Name<A>>,
) -> Option<u32>
    ensures { Finds
        (AnyUnknown (lent known.now.names.items)
        (as_list (option_map (λ r. name_of r.now) receiver.entry))) result }
{
    known.unknown(receiver?)
}

/// The same for the variables that a statement gives values to.
pub(crate) fn in_targets<A: Allocator + Copy>(known: &Known<A>, stmt: &Stmt<A>) -> Option<u32>
    ensures { Finds
        (AnyUnknown (lent known.now.names.items) (targets_of (statement_of stmt.now).head)) result }
{
    let assigned = earliest(stmt.core.targets(), |target| known.unknown(target));
    let receiver = in_receiver(known, stmt.core.receiver());
    earlier(assigned, receiver)
}

/// The same for an optional expression.
pub(crate) fn in_given<A: Allocator + Copy>(
    known: &Known<A>,
    given: Option<&Expr<A>>,
) -> Option<u32>
    ensures { Finds
        (λ n. AnyOf (λ e. AnyUnknown (lent known.now.names.items) (variables_of e) n)
        (as_list (option_map (λ r. expr_of r.now) given.entry))) result }
{
    in_expr(known, given?)
}

/// The same for the arguments of a call, or the value that is returned.
pub(crate) fn in_arguments<A: Allocator + Copy>(known: &Known<A>, stmt: &Stmt<A>) -> Option<u32>
    ensures { Finds
        (λ n. AnyOf (λ e. AnyUnknown (lent known.now.names.items) (variables_of e) n)
        (arguments_of (statement_of stmt.now).head)) result }
{
    let passed = earliest(stmt.core.arguments(), |e| in_expr(known, e));
    let given = in_given(known, stmt.core.given());
    earlier(passed, given)
}

/// The same for the variables of a statement, without those of the statements that it holds.
pub(crate) fn in_statement<A: Allocator + Copy>(known: &Known<A>, stmt: &Stmt<A>) -> Option<u32>
    ensures { Finds
        (AnyUnknown (lent known.now.names.items) (used_by (statement_of stmt.now).head)) result }
{
    let targets = in_targets(known, stmt);
    let sides = earliest(stmt.core.sides(), |side| in_rhs(known, side));
    let test = in_test(known, stmt.core.test());
    let arguments = in_arguments(known, stmt);
    let tested = earlier(test, arguments);
    let read = earlier(sides, tested);
    earlier(targets, read)
}

/// The offset of a called procedure that is not there.
pub(crate) fn in_call<A: Allocator>(procs: &[Proc<A>], stmt: &Stmt<A>) -> Option<u32>
    ensures { Finds (λ n. CallsUnknown (procs_of procs.now) n (statement_of stmt.now).head) result }
{
    let callee = stmt.core.callee()?;
    match find(procs, callee) {
        None => Some(callee.at),
        Some(_) => None,
    }
}

/// The least offset of a variable or a called procedure of a statement that has no declaration.
pub(crate) fn of_statement<A: Allocator + Copy>(
    known: &Known<A>,
    procs: &[Proc<A>],
    stmt: &Stmt<A>,
) -> Option<u32>
    ensures { Finds
        (IsUndeclaredIn (lent known.now.names.items) (procs_of procs.now) (statement_of stmt.now))
        result }
{
    let first = in_statement(known, stmt);
    let second = in_call(procs, stmt);
    earlier(first, second)
}

/// The same for a procedure.
pub(crate) fn of_proc<A: Allocator + Copy>(
    alloc: &A,
    program: &Program<A>,
    proc: &Proc<A>,
) -> Answer
    ensures { IfOk result
        (λ r. Finds (UndeclaredInProcedure (tree_of program.now) (proc_of proc.now)) r) }
{
    let own = own_names(alloc, proc)?;
    let all = lend(&program.globals, own)?;
    let known = Known::new(*alloc, all)?;
    let stmts = statements(alloc, proc)?;
    let procs = program.procs.as_slice();
    Ok(earliest(&stmts, |stmt| of_statement(&known, procs, stmt)))
}

/// The least offset of a variable or a called procedure that has no declaration; nothing if each has one. An
/// error is a refused allocation.
pub(crate) fn first_undeclared<A: Allocator + Copy>(alloc: &A, program: &Program<A>) -> Answer
    ensures { IfOk result (λ r. Finds (λ n. Undeclared (tree_of program.now) n) r) }
{
    try_earliest(&program.procs, |proc| of_proc(alloc, program, proc))
}
