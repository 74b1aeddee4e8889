//! Reading statements.

ghost use Rattle.std.specs.Prelude.{◌≡◌, ◌≤◌, length, IfOk, option_map};
ghost use Rattle.syntax.specs.Gives.{Parses, Shorter};
ghost use Rattle.syntax.specs.Exact.{
  closed,
  name,
  marked,
  assignment,
  calling,
  asking,
  names_call,
  asks_behind,
  giving,
  jumping,
  asserting,
  assuming,
  semicolon_after,
  starts_here,
  section,
  item,
  deed,
  if_deed,
  while_deed,
};
ghost use Rattle.trees.specs.Trees.{name_of, deed_of, item_of, block_of};
ghost use Rattle.tokens.specs.Token.{toks_of};

use crate::element::Element;
use crate::fault::ReadFault;
use crate::reader::{Read, Reader, begins, put};
use std::alloc::Allocator;
use tokens::{Kind, Token};
use trees::{Core, Name, Stmt};

/// Whether a statement comes next.
#[tactic(auto, unfolding(tokens::specs::Token::same_kind))]
fn begins_statement(tokens: &[Token<'_>]) -> bool
    ensures { result ≡ starts_here (toks_of tokens.now) }
{
    let Some((first, _)) = tokens.split_first() else {
        return false;
    };
    matches!(
        first.kind,
        Kind::Skip
            | Kind::Return
            | Kind::Goto
            | Kind::Assert
            | Kind::Assume
            | Kind::If
            | Kind::While
            | Kind::Id
    )
}

/// Whether a name and `(` come next.
#[tactic(auto, unfolding(crate::specs::Exact::names_call))]
fn names_call(tokens: &[Token<'_>]) -> bool
    ensures { result ≡ names_call (toks_of tokens.now) }
{
    let Some((first, rest)) = tokens.split_first() else {
        return false;
    };
    first.kind.is(Kind::Id) && begins(Kind::Open, rest)
}

/// Whether `:=`, a name and `(` come next, as after the target of a call.
#[tactic(auto, unfolding(crate::specs::Exact::asks_behind))]
fn asks_behind(tokens: &[Token<'_>]) -> bool
    ensures { result ≡ asks_behind (toks_of tokens.now) }
{
    let Some((first, rest)) = tokens.split_first() else {
        return false;
    };
    first.kind.is(Kind::Assign) && names_call(rest)
}

impl<'a, A: Allocator + Clone> Reader<'a, A> {
    /// Reads a label, if there is one, and returns the place of the statement.
    #[tactic(auto, unfolding(crate::specs::Exact::marked))]
    fn mark<'t>(&self, tokens: &'t [Token<'t>]) -> Read<'t, (Option<Name<A>>, u32)>
        ensures gives { Parses
            (λ m. record { label = option_map name_of m.0; at = m.1 }) result marked tokens.now }
        ensures no_longer { IfOk result (λ p. length p.1.now ≤ length tokens.now) }
    {
        let Some((first, rest)) = tokens.split_first() else {
            return Err(ReadFault::Syntax(self.end));
        };
        if first.kind.is(Kind::Id) && begins(Kind::Colon, rest) {
            let (_, behind) = self.take(Kind::Colon, rest)?;
            return Ok(((Some(self.name(first)?), first.at), behind));
        }
        Ok(((None, first.at), tokens))
    }

    /// Reads a semicolon, after what a statement does.
    fn ended<'t>(&self, core: Core<A>, tokens: &'t [Token<'t>]) -> Read<'t, Core<A>>
        ensures gives { Parses deed_of result (semicolon_after (deed_of core)) tokens.now }
        ensures shorter { Shorter result tokens.now }
    {
        self.closed(Ok((core, tokens)), Kind::Semicolon)
    }

    /// Reads a name, and a token of this kind after it.
    pub fn name_before<'t>(&self, kind: Kind, tokens: &'t [Token<'t>]) -> Read<'t, Name<A>>
        ensures gives { Parses name_of result (closed kind name) tokens.now }
        ensures shorter { Shorter result tokens.now }
    {
        self.closed(Name::read(self, tokens), kind)
    }

    /// Reads an assignment.
    #[tactic(auto, unfolding(crate::specs::Exact::assignment))]
    fn assignment<'t>(&self, tokens: &'t [Token<'t>]) -> Read<'t, Core<A>>
        ensures gives { Parses deed_of result assignment tokens.now }
        ensures shorter { Shorter result tokens.now }
    {
        let (targets, others) = self.listed(Kind::Assign, tokens)?;
        let (sides, rest) = self.listed(Kind::Semicolon, others)?;
        Ok((Core::Assign(targets, sides), rest))
    }

    /// Reads a call.
    #[tactic(auto, using(crate::proofs::Parts::strict_expression), unfolding(crate::specs::Exact::calling))]
    fn calling<'t>(&self, tokens: &'t [Token<'t>]) -> Read<'t, Core<A>>
        ensures gives { Parses deed_of result calling tokens.now }
        ensures shorter { Shorter result tokens.now }
    {
        let (name, others) = Name::read(self, tokens)?;
        let (arguments, rest) = self.enclosed(others)?;
        self.ended(Core::Call(name, arguments), rest)
    }

    /// Reads a call for a value.
    #[tactic(auto, using(crate::proofs::Parts::strict_expression), unfolding(crate::specs::Exact::asking))]
    fn asking<'t>(&self, tokens: &'t [Token<'t>]) -> Read<'t, Core<A>>
        ensures gives { Parses deed_of result asking tokens.now }
        ensures shorter { Shorter result tokens.now }
    {
        let (target, behind) = self.name_before(Kind::Assign, tokens)?;
        let (name, opened) = Name::read(self, behind)?;
        let (arguments, rest) = self.enclosed(opened)?;
        self.ended(Core::CallTo(target, name, arguments), rest)
    }

    /// Reads a value, after `return`.
    #[tactic(auto, unfolding(crate::specs::Exact::giving))]
    fn giving<'t>(&self, tokens: &'t [Token<'t>]) -> Read<'t, Core<A>>
        ensures gives { Parses deed_of result giving tokens.now }
        ensures shorter { Shorter result tokens.now }
    {
        let (value, rest) = self.expression(0, tokens)?;
        self.ended(Core::Give(value), rest)
    }

    /// Reads a `goto`, after that word.
    fn jumping<'t>(&self, tokens: &'t [Token<'t>]) -> Read<'t, Core<A>>
        ensures gives { Parses deed_of result jumping tokens.now }
        ensures shorter { Shorter result tokens.now }
    {
        let (label, rest) = Name::read(self, tokens)?;
        self.ended(Core::Goto(label), rest)
    }

    /// Reads an `assert`, after that word.
    fn asserting<'t>(&self, tokens: &'t [Token<'t>]) -> Read<'t, Core<A>>
        ensures gives { Parses deed_of result asserting tokens.now }
        ensures shorter { Shorter result tokens.now }
    {
        let (side, rest) = self.test(Kind::Semicolon, tokens)?;
        Ok((Core::Assert(side), rest))
    }

    /// Reads an `assume`, after that word.
    fn assuming<'t>(&self, tokens: &'t [Token<'t>]) -> Read<'t, Core<A>>
        ensures gives { Parses deed_of result assuming tokens.now }
        ensures shorter { Shorter result tokens.now }
    {
        let (side, rest) = self.test(Kind::Semicolon, tokens)?;
        Ok((Core::Assume(side), rest))
    }

    /// Reads statements, at least one, as long as another comes.
    #[cycle(statements)]
    #[tactic(auto, using(crate::proofs::Goings::section_steps))]
    pub fn statements<'t>(&self, tokens: &'t [Token<'t>]) -> Read<'t, Vec<Stmt<A>, A>>
        ensures gives { Parses (λ v. block_of v.items) result section tokens.now }
        ensures shorter { Shorter result tokens.now }
    {
        let (first, mut rest) = self.statement(tokens)?;
        let mut list = self.one(4, first)?;
        while begins_statement(rest) {
            let (next, after) = self.statement(rest)?;
            put(&mut list, next)?;
            rest = after;
        }
        Ok((list, rest))
    }

    /// Reads statements, and a token of this kind after them.
    #[cycle(statements)]
    pub fn statements_before<'t>(
        &self,
        kind: Kind,
        tokens: &'t [Token<'t>],
    ) -> Read<'t, Vec<Stmt<A>, A>>
        ensures gives { Parses (λ v. block_of v.items) result (closed kind section) tokens.now }
        ensures shorter { Shorter result tokens.now }
    {
        self.closed(self.statements(tokens), kind)
    }

    /// Reads a statement.
    #[cycle(statements)]
    #[tactic(auto, unfolding(crate::specs::Exact::item, crate::specs::Exact::deed))]
    fn statement<'t>(&self, tokens: &'t [Token<'t>]) -> Read<'t, Stmt<A>>
        ensures gives { Parses item_of result item tokens.now }
        ensures shorter { Shorter result tokens.now }
    {
        let ((label, at), others) = self.mark(tokens)?;
        let (core, rest) = self.core(others)?;
        Ok((Stmt { label, at, core }, rest))
    }

    /// Reads what a statement does.
    #[cycle(statements)]
    #[tactic(auto, unfolding(crate::specs::Exact::deed, crate::specs::Exact::named, tokens::specs::Token::same_kind))]
    fn core<'t>(&self, tokens: &'t [Token<'t>]) -> Read<'t, Core<A>>
        ensures gives { Parses deed_of result deed tokens.now }
        ensures shorter { Shorter result tokens.now }
    {
        let Some((first, others)) = tokens.split_first() else {
            return Err(ReadFault::Syntax(self.end));
        };
        match first.kind {
            Kind::Skip => self.ended(Core::Skip, others),
            Kind::Return if begins(Kind::Semicolon, others) => self.ended(Core::Return, others),
            Kind::Return => self.giving(others),
            Kind::Goto => self.jumping(others),
            Kind::Assert => self.asserting(others),
            Kind::Assume => self.assuming(others),
            Kind::If => self.branch(others),
            Kind::While => self.repeat(others),
            Kind::Id if begins(Kind::Open, others) => self.calling(tokens),
            Kind::Id if asks_behind(others) => self.asking(tokens),
            Kind::Id => self.assignment(tokens),
            _ => Err(ReadFault::Syntax(first.at)),
        }
    }

    /// Reads an `if`, after that word.
    #[cycle(statements)]
    #[tactic(auto, unfolding(crate::specs::Exact::if_deed))]
    fn branch<'t>(&self, tokens: &'t [Token<'t>]) -> Read<'t, Core<A>>
        ensures gives { Parses deed_of result if_deed tokens.now }
        ensures shorter { Shorter result tokens.now }
    {
        let (side, opened) = self.test(Kind::Then, tokens)?;
        let (yes, between) = self.statements_before(Kind::Else, opened)?;
        let (no, rest) = self.statements_before(Kind::Fi, between)?;
        Ok((Core::If(side, yes, no), rest))
    }

    /// Reads a `while`, after that word.
    #[cycle(statements)]
    #[tactic(auto, unfolding(crate::specs::Exact::while_deed))]
    fn repeat<'t>(&self, tokens: &'t [Token<'t>]) -> Read<'t, Core<A>>
        ensures gives { Parses deed_of result while_deed tokens.now }
        ensures shorter { Shorter result tokens.now }
    {
        let (side, opened) = self.test(Kind::Do, tokens)?;
        let (body, rest) = self.statements_before(Kind::Od, opened)?;
        Ok((Core::While(side, body), rest))
    }
}
