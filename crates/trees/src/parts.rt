//! The parts of a statement: what can be asked of it, whatever its kind.

ghost use Rattle.std.specs.Prelude.{◌≡◌, option_map};
ghost use Rattle.language.specs.Parts.{assigns, sides_of, test_of, callee_of, gives, jump_of};
ghost use Rattle.language.specs.Resolve.{gives_value};
ghost use Rattle.trees.specs.Trees.{name_of, names_of, rhs_of, rhss_of, expr_of, exprs_of};
ghost use Rattle.trees.specs.Trees.{block_of, deed_of};
ghost use Rattle.trees.specs.Parts.{head_of, first_inside, second_inside, assigned_by, receiver_of};
ghost use Rattle.trees.specs.Parts.{passed_by, given_by, gives_inside};

use crate::tree::{Core, Expr, Name, Rhs, Stmt};
use std::alloc::Allocator;

impl<A: Allocator> Core<A> {
    /// Whether it is an assignment, whose right sides are for its targets one by one.
    pub fn assigns(&self) -> bool
        ensures { result ≡ assigns (head_of (deed_of self.now)) }
    {
        match self {
            Core::Assign(_, _) => true,
            _ => false,
        }
    }

    /// The targets of an assignment, in order.
    pub fn targets(&self) -> &[Name<A>]
        ensures { names_of result.now ≡ assigned_by (head_of (deed_of self.now)) }
    {
        match self {
            Core::Assign(targets, _) => targets,
            _ => &[],
        }
    }

    /// The variable that gets the value of a call, if it calls for one.
    pub fn receiver(&self) -> Option<&Name<A>>
        ensures { option_map (λ r. name_of r.now) result
            ≡ receiver_of (head_of (deed_of self.now)) }
    {
        match self {
            Core::CallTo(name, _, _) => Some(name),
            _ => None,
        }
    }

    /// The right sides for the targets of an assignment, in order.
    pub fn sides(&self) -> &[Rhs<A>]
        ensures { rhss_of result.now ≡ sides_of (head_of (deed_of self.now)) }
    {
        match self {
            Core::Assign(_, sides) => sides,
            _ => &[],
        }
    }

    /// The right side that it tests, if it tests one.
    pub fn test(&self) -> Option<&Rhs<A>>
        ensures { option_map (λ r. rhs_of r.now) result ≡ test_of (head_of (deed_of self.now)) }
    {
        match self {
            Core::If(test, _, _) => Some(test),
            Core::While(test, _) => Some(test),
            Core::Assert(test) => Some(test),
            Core::Assume(test) => Some(test),
            _ => None,
        }
    }

    /// The arguments of a call, in order.
    pub fn arguments(&self) -> &[Expr<A>]
        ensures { exprs_of result.now ≡ passed_by (head_of (deed_of self.now)) }
    {
        match self {
            Core::Call(_, arguments) => arguments,
            Core::CallTo(_, _, arguments) => arguments,
            _ => &[],
        }
    }

    /// The value that it returns, if it returns one.
    pub fn given(&self) -> Option<&Expr<A>>
        ensures { option_map (λ r. expr_of r.now) result ≡ given_by (head_of (deed_of self.now)) }
    {
        match self {
            Core::Give(value) => Some(value),
            _ => None,
        }
    }

    /// Whether it returns a value.
    pub fn gives(&self) -> bool
        ensures { result ≡ gives (head_of (deed_of self.now)) }
    {
        match self {
            Core::Give(_) => true,
            _ => false,
        }
    }

    /// The procedure that it calls, if it calls one.
    pub fn callee(&self) -> Option<&Name<A>>
        ensures { option_map (λ r. name_of r.now) result ≡ callee_of (head_of (deed_of self.now)) }
    {
        match self {
            Core::Call(name, _) => Some(name),
            Core::CallTo(_, name, _) => Some(name),
            _ => None,
        }
    }

    /// The label that it jumps to, if it jumps.
    pub fn jump(&self) -> Option<&Name<A>>
        ensures { option_map (λ r. name_of r.now) result ≡ jump_of (head_of (deed_of self.now)) }
    {
        match self {
            Core::Goto(label) => Some(label),
            _ => None,
        }
    }

    /// The two lists of statements that it holds, in the order of the text: the branches of an `if`, or the body of a
    /// `while` and an empty one; both are empty if it holds none.
    pub fn inside(&self) -> (&[Stmt<A>], &[Stmt<A>])
        ensures first { block_of result.0.now ≡ first_inside (deed_of self.now) }
        ensures second { block_of result.1.now ≡ second_inside (deed_of self.now) }
    {
        match self {
            Core::If(_, yes, no) => (yes, no),
            Core::While(_, body) => (body, &[]),
            _ => (&[], &[]),
        }
    }
}

/// Whether some of the statements returns a value, including those that they hold.
#[cycle(giving)]
pub fn give_value<A: Allocator>(stmts: &[Stmt<A>]) -> bool
    ensures { result ≡ gives_value (block_of stmts.now) }
{
    for stmt in stmts {
        if gives_within(&stmt.core) {
            return true;
        }
    }
    false
}

/// Whether the statement returns a value, or one that it holds.
#[cycle(giving)]
fn gives_within<A: Allocator>(core: &Core<A>) -> bool
    ensures { result ≡ gives_inside (deed_of core.now) }
{
    let (first, second) = core.inside();
    core.gives() || give_value(first) || give_value(second)
}
