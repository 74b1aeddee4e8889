//! What lists have: names, right sides and expressions; and what is in parentheses.

ghost use Rattle.std.specs.Prelude.{map};
ghost use Rattle.syntax.specs.Gives.{Parses, Shorter};
ghost use Rattle.syntax.specs.Exact.{closed, listed, enclosed, condition};
ghost use Rattle.syntax.specs.Parser.{Strict};
ghost use Rattle.trees.specs.Trees.{rhs_of};
ghost use Rattle.tokens.specs.Token.{toks_of};

use crate::element::Element;
use crate::reader::{Read, Reader, begins};
use std::alloc::Allocator;
use tokens::{Kind, Token};
use trees::{Expr, Name, Rhs};

impl<A: Allocator + Clone> Element<A> for Name<A> {
    fn read<'t>(reader: &Reader<'_, A>, tokens: &'t [Token<'t>]) -> Read<'t, Name<A>> {
        let (token, rest) = reader.take(Kind::Id, tokens)?;
        Ok((reader.name(&token)?, rest))
    }
}

impl<A: Allocator + Clone> Element<A> for Rhs<A> {
    /// Reads `?` or an expression.
    fn read<'t>(reader: &Reader<'_, A>, tokens: &'t [Token<'t>]) -> Read<'t, Rhs<A>> {
        if begins(Kind::Any, tokens) {
            let (_, rest) = reader.take(Kind::Any, tokens)?;
            return Ok((Rhs::Any, rest));
        }
        let (value, rest) = reader.expression(0, tokens)?;
        Ok((Rhs::Value(value), rest))
    }
}

impl<A: Allocator + Clone> Element<A> for Expr<A> {
    fn read<'t>(reader: &Reader<'_, A>, tokens: &'t [Token<'t>]) -> Read<'t, Expr<A>> {
        reader.expression(0, tokens)
    }
}

impl<'a, A: Allocator + Clone> Reader<'a, A> {
    /// Reads items with commas between them, and a token of this kind after them.
    pub fn listed<'t, T: Element<A>>(
        &self,
        kind: Kind,
        tokens: &'t [Token<'t>],
    ) -> Read<'t, Vec<T, A>>
        requires { Strict T.grammar }
        ensures gives { Parses (λ v. map T.tree v.items) result (listed T.grammar kind) tokens.now }
        ensures shorter { Shorter result tokens.now }
    {
        self.closed(self.list(tokens), kind)
    }

    /// Reads items in parentheses, with commas between them, of which there may be none.
    #[tactic(auto, unfolding(crate::specs::Exact::enclosed))]
    pub fn enclosed<'t, T: Element<A>>(&self, tokens: &'t [Token<'t>]) -> Read<'t, Vec<T, A>>
        requires { Strict T.grammar }
        ensures gives { Parses (λ v. map T.tree v.items) result (enclosed T.grammar) tokens.now }
        ensures shorter { Shorter result tokens.now }
    {
        let (_, inside) = self.take(Kind::Open, tokens)?;
        if begins(Kind::Close, inside) {
            return self.closed(self.none(inside), Kind::Close);
        }
        self.listed(Kind::Close, inside)
    }

    /// Reads a right side in parentheses, and a token of this kind after it.
    #[tactic(auto, unfolding(crate::specs::Exact::condition))]
    pub fn test<'t>(&self, kind: Kind, tokens: &'t [Token<'t>]) -> Read<'t, Rhs<A>>
        ensures gives { Parses rhs_of result (closed kind condition) tokens.now }
        ensures shorter { Shorter result tokens.now }
    {
        let (_, inside) = self.take(Kind::Open, tokens)?;
        let side = self.closed(Rhs::read(self, inside), Kind::Close);
        self.closed(side, kind)
    }
}
