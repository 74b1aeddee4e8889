//! Printing names, expressions and right sides.

ghost use Rattle.std.specs.Prelude.{◌≡◌, ◌∷◌, []};
ghost use Rattle.tokens.specs.Parts.{space, fixed, text_of};
ghost use Rattle.trees.specs.Trees.{operator_of, expr_of};
ghost use Rattle.grammar.specs.Printed.{Prints, kind_of, operand_parts};

use crate::show::Show;
use std::alloc::{AllocError, Allocator};
use trees::{Expr, Name, Op, Rhs};

/// An operator, with one space on both sides.
fn sign(op: Op) -> &'static str
    ensures { result.now ≡ text_of (space ∷ fixed (kind_of (operator_of op)) ∷ space ∷ []) }
{
    match op {
        Op::Implies => " => ",
        Op::Or => " | ",
        Op::Xor => " ^ ",
        Op::And => " & ",
        Op::Equal => " = ",
        Op::Differs => " != ",
    }
}

impl<N: Allocator> Show for Name<N> {
    fn print<A: Allocator>(&self, out: &mut String<A>) -> Result<(), AllocError> {
        out.push_str(self.text.as_str())
    }
}

/// Prints an expression as an operand: a two-sided operation in parentheses.
fn print_operand<N: Allocator, A: Allocator>(
    out: &mut String<A>,
    expr: &Expr<N>,
) -> Result<(), AllocError>
    ensures { Prints result out.old out.new (operand_parts (expr_of expr.now)) }
{
    match expr {
        Expr::Const(false) => out.push_str("0"),
        Expr::Const(true) => out.push_str("1"),
        Expr::Var(name) => name.print(out),
        Expr::Not(inner) => {
            out.push_str("!")?;
            print_operand(out, inner)
        }
        Expr::Two(op, left, right) => {
            out.push_str("(")?;
            print_operand(out, left)?;
            out.push_str(sign(*op))?;
            print_operand(out, right)?;
            out.push_str(")")
        }
    }
}

impl<N: Allocator> Show for Expr<N> {
    /// Prints the expression, without parentheses around it.
    fn print<A: Allocator>(&self, out: &mut String<A>) -> Result<(), AllocError> {
        match self {
            Expr::Two(op, left, right) => {
                print_operand(out, left)?;
                out.push_str(sign(*op))?;
                print_operand(out, right)
            }
            Expr::Const(_) => print_operand(out, self),
            Expr::Var(_) => print_operand(out, self),
            Expr::Not(_) => print_operand(out, self),
        }
    }
}

impl<N: Allocator> Show for Rhs<N> {
    fn print<A: Allocator>(&self, out: &mut String<A>) -> Result<(), AllocError> {
        match self {
            Rhs::Any => out.push_str("?"),
            Rhs::Value(value) => value.print(out),
        }
    }
}
