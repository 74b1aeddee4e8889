//! Reading declarations, procedures, thread lines and whole programs.

ghost use Rattle.std.specs.Prelude.{◌≡◌, ◌≤◌, [], length, IfOk};
ghost use Rattle.syntax.specs.Gives.{Gives, Parses, Shorter};
ghost use Rattle.syntax.specs.Exact.{declaration, all_declarations, insides, program};
ghost use Rattle.trees.specs.Trees.{names_of, block_of, tree_of};
ghost use Rattle.tokens.specs.Token.{toks_of};

use crate::element::{Element, Unseparated};
use crate::fault::ReadFault;
use crate::reader::{Read, Reader, begins};
use std::alloc::Allocator;
use tokens::{Kind, Token};
use trees::{Name, Proc, Program, Stmt, Thread};

impl<'a, A: Allocator + Clone> Reader<'a, A> {
    /// Reads a declaration.
    #[tactic(auto, unfolding(crate::specs::Exact::declaration))]
    fn declaration<'t>(&self, tokens: &'t [Token<'t>]) -> Read<'t, Vec<Name<A>, A>>
        ensures gives { Parses (λ v. names_of v.items) result declaration tokens.now }
        ensures shorter { Shorter result tokens.now }
    {
        let (_, inside) = self.take(Kind::Decl, tokens)?;
        self.listed(Kind::Semicolon, inside)
    }

    /// Reads declarations, as long as there are any, into one list.
    #[tactic(auto, using(crate::proofs::Loops::declaration_steps))]
    fn declarations<'t>(&self, tokens: &'t [Token<'t>]) -> Read<'t, Vec<Name<A>, A>>
        ensures gives { Parses (λ v. names_of v.items) result all_declarations tokens.now }
        ensures no_longer { IfOk result (λ p. length p.1.now ≤ length tokens.now) }
    {
        let (mut list, mut rest) = self.none(tokens)?;
        while begins(Kind::Decl, rest) {
            let (mut next, after) = self.declaration(rest)?;
            list.append(&mut next)?;
            rest = after;
        }
        Ok((list, rest))
    }

    /// Reads `begin`, the locals, the statements and `end`.
    #[tactic(auto, unfolding(crate::specs::Exact::insides))]
    fn insides<'t>(&self, tokens: &'t [Token<'t>]) -> Read<'t, (Vec<Name<A>, A>, Vec<Stmt<A>, A>)>
        ensures gives { Parses
            (λ b. (names_of b.0.items, block_of b.1.items)) result insides tokens.now }
        ensures shorter { Shorter result tokens.now }
    {
        let (_, inside) = self.take(Kind::Begin, tokens)?;
        let (locals, others) = self.declarations(inside)?;
        let (body, rest) = self.statements_before(Kind::End, others)?;
        Ok(((locals, body), rest))
    }

    /// Reads a whole program.
    #[tactic(auto, unfolding(crate::specs::Exact::program))]
    pub fn program(&self, tokens: &[Token<'_>]) -> Result<Program<A>, ReadFault>
        ensures gives { Gives (λ p. (tree_of p, [])) result (program (toks_of tokens.now)) }
    {
        let (globals, others) = self.declarations(tokens)?;
        let (procs, last) = self.repeated(others)?;
        let (threads, _) = self.repeated(last)?;
        Ok(Program {
            globals,
            procs,
            threads,
        })
    }
}

impl<A: Allocator + Clone> Element<A> for Proc<A> {
    #[tactic(auto, unfolding(crate::specs::Exact::procedure))]
    fn read<'t>(reader: &Reader<'_, A>, tokens: &'t [Token<'t>]) -> Read<'t, Proc<A>> {
        let (name, opened) = Name::read(reader, tokens)?;
        let (formals, begun) = reader.enclosed(opened)?;
        let ((locals, body), rest) = reader.insides(begun)?;
        Ok((
            Proc {
                name,
                formals,
                locals,
                body,
            },
            rest,
        ))
    }
}

impl<A: Allocator + Clone> Unseparated<A> for Proc<A> {
    ghost use Rattle.syntax.specs.Parser.{begins};
    ghost use Rattle.tokens.specs.declared.vocabulary.Kind.TheVariants.{Id};

    ghost another = { begins Id };

    /// Whether a name comes.
    fn comes(tokens: &[Token<'_>]) -> bool {
        begins(Kind::Id, tokens)
    }
}

impl<A: Allocator + Clone> Element<A> for Thread<A> {
    #[tactic(auto, unfolding(crate::specs::Exact::thread_line))]
    fn read<'t>(reader: &Reader<'_, A>, tokens: &'t [Token<'t>]) -> Read<'t, Thread<A>> {
        let (word, others) = reader.take(Kind::Thread, tokens)?;
        let (name, rest) = reader.name_before(Kind::Semicolon, others)?;
        Ok((Thread { at: word.at, name }, rest))
    }
}

impl<A: Allocator + Clone> Unseparated<A> for Thread<A> {
    ghost use Rattle.syntax.specs.Exact.{any_left};

    ghost another = { any_left };

    /// Whether any token comes.
    fn comes(tokens: &[Token<'_>]) -> bool {
        match tokens.split_first() {
            Some(_) => true,
            None => false,
        }
    }
}
