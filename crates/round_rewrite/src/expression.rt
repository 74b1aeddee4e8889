//! What expressions are rewritten to.

ghost use Rattle.std.specs.Prelude.{◌≡◌, ◌+◌, ◌<◌, ◌^◌, suc, IfOk, map};
ghost use Rattle.language.specs.Resolve.{is_declared};
ghost use Rattle.language.specs.Tree.{const, var, negation, two};
ghost use Rattle.trees.specs.Trees.{name_of, operator_of, expr_of, exprs_of, rhs_of};
ghost use Rattle.round_rewrite.specs.Table.{numbers, literal, has_value, in_round, read_by_round};
ghost use Rattle.round_rewrite.specs.Table.{read, expression_form, side, copy_value};
ghost use Rattle.round_rewrite.specs.Names.{bit_name, copy_name};
ghost use Rattle.round_rewrite.specs.Limits.{most_rounds};

use crate::lists::put_made;
use crate::names::{bit, clone_name, copy};
use crate::writer::Writer;
use std::alloc::{AllocError, Allocator};
use trees::{Expr, Name, Op, Rhs, declares};

/// The negation of an expression.
pub(crate) fn not<A: Allocator + Copy>(alloc: &A, e: Expr<A>) -> Result<Expr<A>, AllocError>
    ensures { IfOk result (λ r. expr_of r ≡ negation (expr_of e)) }
{
    Ok(Expr::Not(Box::new(*alloc, e)?))
}

/// An operator between two expressions.
pub(crate) fn operation<A: Allocator + Copy>(
    alloc: &A,
    op: Op,
    left: Expr<A>,
    right: Expr<A>,
) -> Result<Expr<A>, AllocError>
    ensures { IfOk result (λ r. expr_of r ≡ two (operator_of op) (expr_of left) (expr_of right)) }
{
    let left = Box::new(*alloc, left)?;
    let right = Box::new(*alloc, right)?;
    Ok(Expr::Two(op, left, right))
}

/// The test that a bit of the round's number has this value: itself if that is 1, its negation if it is 0.
fn literal<A: Allocator + Copy>(alloc: &A, value: u8, number: u8) -> Result<Expr<A>, AllocError>
    ensures { IfOk result (λ e. expr_of e ≡ literal value (bit_name number)) }
{
    let name = bit(*alloc, number)?;
    if value == 0 {
        not(alloc, Expr::Var(name))
    } else {
        Ok(Expr::Var(name))
    }
}

/// The test that the bits of the round's number from `number` to `above` places higher have this value.
fn has_value<A: Allocator + Copy>(
    alloc: &A,
    value: u8,
    number: u8,
    above: u8,
) -> Result<Expr<A>, AllocError>
    requires { number + above < 2 ^ 8 }
    ensures { IfOk result
        (λ e. expr_of e ≡ has_value value (map bit_name (numbers number (suc above)))) }
{
    if above == 0 {
        return literal(alloc, value % 2, number);
    }
    let high = has_value(alloc, value / 2, number + 1, above - 1)?;
    let low = literal(alloc, value % 2, number)?;
    operation(alloc, Op::And, high, low)
}

impl<'a, N: Allocator, A: Allocator + Copy> Writer<'a, N, A> {
    ghost use Rattle.round_rewrite.specs.Writing.{naming_of};

    /// Whether a variable of the procedure is a global.
    pub(crate) fn is_shared(&self, x: &Name<N>) -> bool
        ensures { result ≡ (naming_of self.now).is_shared (name_of x.now) }
    {
        let text = x.text.as_str();
        !declares(self.formals, text) && !declares(self.locals, text)
    }

    /// The test that the round is `round`.
    pub(crate) fn in_round(&self, round: u8) -> Result<Expr<A>, AllocError>
        ensures { IfOk result
            (λ e. expr_of e ≡ in_round (naming_of self.now) self.now.rounds.last round) }
    {
        has_value(self.alloc, round, 0, self.rounds.bits() - 1)
    }

    /// An expression, if the round is this one.
    fn guarded(&self, e: Expr<A>, round: u8) -> Result<Expr<A>, AllocError>
        ensures { IfOk result (λ r. expr_of r ≡ two Rattle.language.specs.Tree.and
            (in_round (naming_of self.now) self.now.rounds.last round)
            (expr_of e)) }
    {
        let is_round = self.in_round(round)?;
        operation(self.alloc, Op::And, is_round, e)
    }

    /// The copy of a global for the round, if the round is this one.
    fn active(&self, round: u8, x: &Name<N>) -> Result<Expr<A>, AllocError>
        requires { round < most_rounds }
        ensures { IfOk result (λ e. expr_of e ≡ two Rattle.language.specs.Tree.and
            (in_round (naming_of self.now) self.now.rounds.last round)
            (var (copy_name round (name_of x.now)))) }
    {
        let name = copy(*self.alloc, round, x)?;
        self.guarded(Expr::Var(name), round)
    }

    /// A read of a global in the rounds up to this one: its copy for the round.
    fn read_by_round(&self, round: u8, x: &Name<N>) -> Result<Expr<A>, AllocError>
        requires { round < most_rounds }
        ensures { IfOk result
            (λ e. expr_of e
            ≡ read_by_round (naming_of self.now) self.now.rounds.last round (name_of x.now)) }
    {
        if round == 0 {
            return self.active(0, x);
        }
        let below = self.read_by_round(round - 1, x)?;
        let here = self.active(round, x)?;
        operation(self.alloc, Op::Or, below, here)
    }

    /// A read of a variable.
    fn read(&self, x: &Name<N>) -> Result<Expr<A>, AllocError>
        ensures { IfOk result
            (λ e. expr_of e ≡ read (naming_of self.now) self.now.rounds.last (name_of x.now)) }
    {
        if self.is_shared(x) {
            self.read_by_round(self.rounds.last, x)
        } else {
            Ok(Expr::Var(clone_name(*self.alloc, x)?))
        }
    }

    /// An expression, with each read of a global rewritten in this way.
    pub(crate) fn expression(&self, e: &Expr<N>) -> Result<Expr<A>, AllocError>
        ensures { IfOk result
            (λ r. expr_of r
            ≡ expression_form (naming_of self.now) self.now.rounds.last (expr_of e.now)) }
    {
        match e {
            Expr::Const(b) => Ok(Expr::Const(*b)),
            Expr::Var(x) => self.read(x),
            Expr::Not(a) => {
                let inner = self.expression(a)?;
                not(self.alloc, inner)
            }
            Expr::Two(op, a, b) => {
                let left = self.expression(a)?;
                let right = self.expression(b)?;
                operation(self.alloc, *op, left, right)
            }
        }
    }

    /// A right side, with each read of a global rewritten in this way.
    pub(crate) fn side(&self, r: &Rhs<N>) -> Result<Rhs<A>, AllocError>
        ensures { IfOk result
            (λ s. rhs_of s ≡ side (naming_of self.now) self.now.rounds.last (rhs_of r.now)) }
    {
        match r {
            Rhs::Any => Ok(Rhs::Any),
            Rhs::Value(e) => Ok(Rhs::Value(self.expression(e)?)),
        }
    }

    /// Arguments, with each read of a global rewritten in this way.
    pub(crate) fn arguments(&self, es: &[Expr<N>]) -> Result<Vec<Expr<A>, A>, AllocError>
        ensures { IfOk result
            (λ v. exprs_of v.items ≡ map (expression_form (naming_of self.now) self.now.rounds.last)
            (exprs_of es.now)) }
    {
        let mut list = Vec::new(*self.alloc);
        for e in es {
            put_made(&mut list, self.expression(e))?;
        }
        Ok(list)
    }

    /// The copy of a global for a round, if the round is another one.
    fn unless_in_round(&self, x: &Name<N>, round: u8) -> Result<Expr<A>, AllocError>
        requires { round < most_rounds }
        ensures { IfOk result
            (λ e. expr_of e ≡ two Rattle.language.specs.Tree.and
            (negation (in_round (naming_of self.now) self.now.rounds.last round))
            (var (copy_name round (name_of x.now)))) }
    {
        let is_round = self.in_round(round)?;
        let other = not(self.alloc, is_round)?;
        let name = copy(*self.alloc, round, x)?;
        operation(self.alloc, Op::And, other, Expr::Var(name))
    }

    /// What the copy of a global for a round gets if the global gets `value`: in that round the value, in every
    /// other its own.
    pub(crate) fn copy_value(
        &self,
        value: Expr<A>,
        x: &Name<N>,
        round: u8,
    ) -> Result<Rhs<A>, AllocError>
        requires { round < most_rounds }
        ensures { IfOk result
            (λ r. rhs_of r ≡ copy_value (naming_of self.now) self.now.rounds.last (expr_of value)
            (name_of x.now) round) }
    {
        let new = self.guarded(value, round)?;
        let old = self.unless_in_round(x, round)?;
        Ok(Rhs::Value(operation(self.alloc, Op::Or, new, old)?))
    }
}
