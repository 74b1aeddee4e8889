//! What is written one after the other, and the loops that read it.

ghost use Rattle.std.specs.Prelude.{◌≡◌, ◌<◌, length, map, Bool, List, IfOk};
ghost use Rattle.syntax.specs.Exact.{list, repeated};
ghost use Rattle.syntax.specs.Gives.{Parses, Shorter, Adds};
ghost use Rattle.syntax.specs.Parser.{Strict};
ghost use Rattle.tokens.specs.Token.{Tok, toks_of};

use crate::fault::ReadFault;
use crate::reader::{Read, Reader, begins, put};
use crate::written::Written;
use std::alloc::Allocator;
use tokens::{Kind, Token};

/// What is written one after the other, like the names of a declaration.
pub(crate) trait Element<A: Allocator + Clone>: Written + Sized + Drop {
    /// Reads an element.
    fn read<'t>(reader: &Reader<'_, A>, tokens: &'t [Token<'t>]) -> Read<'t, Self>
        ensures gives { Parses Self.tree result Self.grammar tokens.now }
        ensures shorter { Shorter result tokens.now };
}

/// An element with no comma before the next.
pub(crate) trait Unseparated<A: Allocator + Clone>: Element<A> {
    // Whether another comes.
    ghost another: { List Tok → Bool };

    /// Whether another comes.
    fn comes(tokens: &[Token<'_>]) -> bool
        ensures { result ≡ another (toks_of tokens.now) };
}

impl<'a, A: Allocator + Clone> Reader<'a, A> {
    /// Reads one more element, and returns the tokens after it.
    fn more<'t, T: Element<A>>(
        &self,
        list: &mut Vec<T, A>,
        tokens: &'t [Token<'t>],
    ) -> Result<&'t [Token<'t>], ReadFault>
        ensures gives { Adds T.tree result T.grammar tokens.now list.old.items list.new.items }
        ensures shorter { IfOk result (λ rest. length rest.now < length tokens.now) }
    {
        let (next, after) = T::read(self, tokens)?;
        put(list, next)?;
        Ok(after)
    }

    /// Reads elements with commas between them. Most lists have one element, so they begin with room for one.
    pub fn list<'t, T: Element<A>>(&self, tokens: &'t [Token<'t>]) -> Read<'t, Vec<T, A>>
        requires { Strict T.grammar }
        ensures gives { Parses (λ v. map T.tree v.items) result (list T.grammar) tokens.now }
        ensures shorter { Shorter result tokens.now }
    {
        let (first, mut rest) = T::read(self, tokens)?;
        let mut list = self.one(1, first)?;
        while begins(Kind::Comma, rest) {
            let (_, others) = self.take(Kind::Comma, rest)?;
            rest = self.more(&mut list, others)?;
        }
        Ok((list, rest))
    }

    /// Reads elements, at least one, as long as another comes.
    pub fn repeated<'t, T: Unseparated<A>>(&self, tokens: &'t [Token<'t>]) -> Read<'t, Vec<T, A>>
        requires { Strict T.grammar }
        ensures gives { Parses (λ v. map T.tree v.items) result
            (repeated T.another T.grammar) tokens.now }
        ensures shorter { Shorter result tokens.now }
    {
        let (first, mut rest) = T::read(self, tokens)?;
        let mut list = self.one(4, first)?;
        while T::comes(rest) {
            rest = self.more(&mut list, rest)?;
        }
        Ok((list, rest))
    }
}
