//! What each reader of tokens needs, and the readers of single tokens.

ghost use Rattle.std.specs.Prelude.{◌≡◌, ◌++◌, ◌∷◌, [], IfOk, IsOkUnless};
ghost use Rattle.syntax.specs.Gives.{Parses, Shorter, Closes};
ghost use Rattle.syntax.specs.Parser.{begins, take};
ghost use Rattle.grammar.specs.Grammar.{name_at};
ghost use Rattle.trees.specs.Trees.{name_of};
ghost use Rattle.tokens.specs.Token.{tok_of, toks_of};

use crate::fault::ReadFault;
use std::alloc::Allocator;
use tokens::{Kind, Token};
use trees::Name;

/// What was read, and the tokens after it.
pub(crate) type Read<'t, T> = Result<(T, &'t [Token<'t>]), ReadFault>;

/// What all readers share: where trees are allocated, and the length of the text.
#[derive(Drop)]
pub(crate) struct Reader<'a, A: Allocator + Clone> {
    pub alloc: &'a A,
    pub end: u32,
}

/// Whether a token of this kind comes next.
pub(crate) fn begins(kind: Kind, tokens: &[Token<'_>]) -> bool
    ensures { result ≡ begins kind (toks_of tokens.now) }
{
    match tokens.split_first() {
        Some((first, _)) => first.kind.is(kind),
        None => false,
    }
}

/// Appends a value to the others.
pub(crate) fn put<T: Drop, A: Allocator>(list: &mut Vec<T, A>, value: T) -> Result<(), ReadFault>
    ensures ok { IfOk result (λ _. list.new.items ≡ list.old.items ++ (value ∷ [])) }
    ensures err { IsOkUnless result ReadFault.Memory }
{
    list.push(value)?;
    Ok(())
}

impl<'a, A: Allocator + Clone> Reader<'a, A> {
    /// A list of one element, with room for `room` elements.
    pub fn one<T: Drop>(&self, room: usize, first: T) -> Result<Vec<T, A>, ReadFault>
        ensures ok { IfOk result (λ list. list.items ≡ first ∷ []) }
        ensures err { IsOkUnless result ReadFault.Memory }
    {
        let mut list = Vec::with_capacity(self.alloc.clone()?, room)?;
        list.push(first)?;
        Ok(list)
    }

    /// A value in a box.
    pub fn in_box<T: Drop>(&self, value: T) -> Result<Box<T, A>, ReadFault>
        ensures ok { IfOk result (λ b. b.value ≡ value) }
        ensures err { IsOkUnless result ReadFault.Memory }
    {
        let alloc = self.alloc.clone()?;
        Ok(Box::new(alloc, value)?)
    }

    /// Two values, each in a box.
    pub fn boxed<T: Drop>(&self, left: T, right: T) -> Result<(Box<T, A>, Box<T, A>), ReadFault>
        ensures left { IfOk result (λ p. p.0.value ≡ left) }
        ensures right { IfOk result (λ p. p.1.value ≡ right) }
        ensures err { IsOkUnless result ReadFault.Memory }
    {
        let left = self.in_box(left)?;
        let right = self.in_box(right)?;
        Ok((left, right))
    }

    /// Reads a token of this kind.
    pub fn take<'t>(&self, kind: Kind, tokens: &'t [Token<'t>]) -> Read<'t, Token<'t>>
        ensures gives { Parses tok_of result (take kind) tokens.now }
        ensures shorter { Shorter result tokens.now }
    {
        let Some((first, rest)) = tokens.split_first() else {
            return Err(ReadFault::Syntax(self.end));
        };
        if first.kind.is(kind) {
            Ok((*first, rest))
        } else {
            Err(ReadFault::Syntax(first.at))
        }
    }

    /// Reads a token of this kind after what was read before it.
    pub fn closed<'t, T: Drop>(&self, read: Read<'t, T>, kind: Kind) -> Read<'t, T>
        ensures { Closes kind read.entry result }
    {
        let (value, rest) = read?;
        let (_, behind) = self.take(kind, rest)?;
        Ok((value, behind))
    }

    /// No values, and all tokens.
    pub fn none<'t, T: Drop>(&self, tokens: &'t [Token<'t>]) -> Read<'t, Vec<T, A>>
        ensures ok { IfOk result (λ p. (p.0.items ≡ []) × (p.1.now ≡ tokens.now)) }
        ensures err { IsOkUnless result ReadFault.Memory }
    {
        Ok((Vec::new(self.alloc.clone()?), tokens))
    }

    /// The name that a token is.
    pub fn name(&self, token: &Token<'_>) -> Result<Name<A>, ReadFault>
        ensures ok { IfOk result (λ n. name_of n ≡ name_at (tok_of token.now)) }
        ensures err { IsOkUnless result ReadFault.Memory }
    {
        let text = String::from_str(self.alloc.clone()?, token.text)?;
        Ok(Name { text, at: token.at })
    }
}
