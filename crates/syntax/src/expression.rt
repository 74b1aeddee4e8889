//! Reading expressions by precedence.

ghost use Rattle.std.specs.Prelude.{◌≡◌, option_map};
ghost use Rattle.syntax.specs.Gives.{Parses, Shorter};
ghost use Rattle.grammar.specs.Grammar.{level, right_level};
ghost use Rattle.syntax.specs.Exact.{binds, operand, reading, from};
ghost use Rattle.trees.specs.Trees.{operator_of, expr_of};
ghost use Rattle.tokens.specs.Token.{toks_of};

use crate::fault::ReadFault;
use crate::reader::{Read, Reader};
use std::alloc::Allocator;
use tokens::{Kind, Token};
use trees::{Expr, Op};

/// How strongly an operator binds, and how strongly its right operand does at least: `=>` groups to the right, and the
/// others to the left.
fn levels_of(op: Op) -> (u8, u8)
    ensures own { result.0 ≡ level (operator_of op) }
    ensures right { result.1 ≡ right_level (operator_of op) }
{
    match op {
        Op::Implies => (0, 0),
        Op::Or => (1, 2),
        Op::Xor => (2, 3),
        Op::And => (3, 4),
        Op::Equal | Op::Differs => (4, 5),
    }
}

/// The operator that a token of this kind is, if it binds at this level or above.
fn operator_of_kind(least: u8, kind: Kind) -> Option<Op>
    ensures { option_map operator_of result ≡ binds least kind }
{
    let op = match kind {
        Kind::Implies => Op::Implies,
        Kind::Or => Op::Or,
        Kind::Xor => Op::Xor,
        Kind::And => Op::And,
        Kind::Equal => Op::Equal,
        Kind::Differs => Op::Differs,
        _ => return None,
    };
    let (level, _) = levels_of(op);
    (least <= level).then_some(op)
}

impl<'a, A: Allocator + Clone> Reader<'a, A> {
    /// Reads an expression whose operators outside of parentheses bind at this level or above.
    #[cycle(expressions)]
    #[tactic(auto, using(crate::proofs::Expressions::reading_steps))]
    pub fn expression<'t>(&self, least: u8, tokens: &'t [Token<'t>]) -> Read<'t, Expr<A>>
        ensures gives { Parses expr_of result (reading (from least)) tokens.now }
        ensures shorter { Shorter result tokens.now }
    {
        let (mut tree, mut rest) = self.operand(tokens)?;
        while let Some((first, others)) = rest.split_first() {
            let Some(op) = operator_of_kind(least, first.kind) else {
                break;
            };
            let (_, level) = levels_of(op);
            let (right, after) = self.expression(level, others)?;
            let (left, right) = self.boxed(tree, right)?;
            tree = Expr::Two(op, left, right);
            rest = after;
        }
        Ok((tree, rest))
    }

    /// Reads a constant, a name, `!` and an operand, or an expression in parentheses.
    #[cycle(expressions)]
    #[tactic(auto, unfolding(crate::specs::Exact::operand, tokens::specs::Token::same_kind))]
    fn operand<'t>(&self, tokens: &'t [Token<'t>]) -> Read<'t, Expr<A>>
        ensures gives { Parses expr_of result operand tokens.now }
        ensures shorter { Shorter result tokens.now }
    {
        let Some((first, rest)) = tokens.split_first() else {
            return Err(ReadFault::Syntax(self.end));
        };
        match first.kind {
            Kind::Zero => Ok((Expr::Const(false), rest)),
            Kind::One => Ok((Expr::Const(true), rest)),
            Kind::Id => Ok((Expr::Var(self.name(first)?), rest)),
            Kind::Not => {
                let (inner, after) = self.expression(5, rest)?;
                Ok((Expr::Not(self.in_box(inner)?), after))
            }
            Kind::Open => self.closed(self.expression(0, rest), Kind::Close),
            _ => Err(ReadFault::Syntax(first.at)),
        }
    }
}
