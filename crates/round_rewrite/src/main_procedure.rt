//! The first procedure of a rewritten program: guesses, threads and checks.

ghost use Rattle.std.specs.Prelude.{◌≡◌, ◌<◌, ◌+◌, suc, false, [], IfOk, map};
ghost use Rattle.language.specs.Tree.{equal, any, var, value, two, const, assign, assume, call};
ghost use Rattle.trees.specs.Trees.{simple, name_of, names_of, threads_of, deed_of, block_of};
ghost use Rattle.round_rewrite.specs.Table.{numbers, each, reset_targets, guess, guesses};
ghost use Rattle.round_rewrite.specs.Table.{starts, check, checks, main};
ghost use Rattle.round_rewrite.specs.Names.{by_names, copy_name, save_name};
ghost use Rattle.round_rewrite.specs.Writing.{Appends, line_names};
ghost use Rattle.round_rewrite.specs.Limits.{most_rounds};

use crate::assignment::any_values;
use crate::block::{Stmts, push, push_made};
use crate::cores::{push_bits, push_name, set_all};
use crate::expression::operation;
use crate::lists::{numbered_all, reads};
use crate::names::{COPY, GUESS, clone_name, copy, numbered};
use crate::rounds::Rounds;
use std::alloc::{AllocError, Allocator};
use trees::{Core, Expr, Name, Op, Rhs, Stmt, Thread};

/// Writes the body of the first procedure: where it allocates, for how many rounds, and the globals of the source.
#[derive(Drop)]
struct MainWriter<'a, N: Allocator, A: Allocator + Copy> {
    alloc: &'a A,
    rounds: Rounds,
    globals: &'a [Name<N>],
}

/// The assignment of 0 to the round and `stop__`.
fn reset<A: Allocator + Copy>(alloc: &A, rounds: Rounds) -> Result<Core<A>, AllocError>
    ensures { IfOk result (λ c. deed_of c
        ≡ simple (assign (reset_targets (by_names []) rounds.last)
        (each (value (const false)) (reset_targets (by_names []) rounds.last)))) }
{
    let bits = push_bits(alloc, rounds.bits(), Vec::new(*alloc))?;
    let targets = push_name(alloc, "stop__", bits)?;
    set_all(alloc, false, targets)
}

/// The `assume` that a round's guess of a global is what the round before ended with.
fn agrees<N: Allocator, A: Allocator + Copy>(
    alloc: &A,
    round: u8,
    x: &Name<N>,
) -> Result<Core<A>, AllocError>
    requires { round + 1 < most_rounds }
    ensures { IfOk result (λ c. deed_of c
        ≡ simple (assume (value (two equal (var (save_name (suc round) (name_of x.now)))
        (var (copy_name round (name_of x.now))))))) }
{
    let kept = numbered(*alloc, x, GUESS, round + 1)?;
    let reached = copy(*alloc, round, x)?;
    let same = operation(alloc, Op::Equal, Expr::Var(kept), Expr::Var(reached))?;
    Ok(Core::Assume(Rhs::Value(same)))
}

impl<'a, N: Allocator, A: Allocator + Copy> MainWriter<'a, N, A> {
    /// The guess of the globals for one round.
    fn drawn(&self, round: u8) -> Result<Core<A>, AllocError>
        requires { round < most_rounds }
        ensures { IfOk result (λ c. deed_of c ≡ simple (assign
            (map (copy_name round) (names_of self.now.globals.now))
            (each any (names_of self.now.globals.now)))) }
    {
        let targets = numbered_all(self.alloc, COPY, round, self.globals, Vec::new(*self.alloc))?;
        let sides = any_values(self.alloc, self.globals.len())?;
        Ok(Core::Assign(targets, sides))
    }

    /// The assignment that saves the guess for one round.
    fn saved(&self, round: u8) -> Result<Core<A>, AllocError>
        requires { round < most_rounds }
        ensures { IfOk result (λ c. deed_of c ≡ simple (assign
            (map (save_name round) (names_of self.now.globals.now))
            (map (λ y. value (var (copy_name round y))) (names_of self.now.globals.now)))) }
    {
        let kept = numbered_all(
            self.alloc,
            GUESS,
            round,
            self.globals,
            Vec::new(*self.alloc),
        )?;
        let values = reads(self.alloc, round, self.globals)?;
        Ok(Core::Assign(kept, values))
    }

    /// Appends the guess of the globals for one round, saved, to others.
    fn guess(&self, round: u8, into: &mut Stmts<A>) -> Result<(), AllocError>
        requires { round < most_rounds }
        ensures { Appends result into.old.items into.new.items
            (guess (by_names []) self.now.rounds.last (names_of self.now.globals.now) round) }
    {
        let Some((_first, _)) = self.globals.split_first() else {
            return Ok(());
        };
        push_made(self.drawn(round), into)?;
        push_made(self.saved(round), into)
    }

    /// Appends the guesses of the globals for every round from the second on to others.
    fn guesses(&self, into: &mut Stmts<A>) -> Result<(), AllocError>
        ensures { Appends result into.old.items into.new.items
            (guesses (by_names []) self.now.rounds.last (names_of self.now.globals.now)
            (numbers 1 self.now.rounds.last)) }
    {
        for before in 0..self.rounds.last {
            self.guess(before + 1, into)?;
        }
        Ok(())
    }

    /// Appends the threads, one after the other, to others.
    fn starts(&self, threads: &[Thread<N>], into: &mut Stmts<A>) -> Result<(), AllocError>
        ensures { Appends result into.old.items into.new.items
            (starts (by_names []) self.now.rounds.last (line_names (threads_of threads.now))) }
    {
        for thread in threads {
            push_made(reset(self.alloc, self.rounds), into)?;
            let name = clone_name(*self.alloc, &thread.name)?;
            push(Core::Call(name, Vec::new(*self.alloc)), into)?;
        }
        Ok(())
    }

    /// Appends the check that a round ended with the guess for the next one to others.
    fn check(&self, round: u8, into: &mut Stmts<A>) -> Result<(), AllocError>
        requires { round + 1 < most_rounds }
        ensures { Appends result into.old.items into.new.items
            (check (by_names []) self.now.rounds.last (names_of self.now.globals.now) round) }
    {
        for x in self.globals {
            push_made(agrees(self.alloc, round, x), into)?;
        }
        Ok(())
    }

    /// Appends the checks of every round but the last to others.
    fn checks(&self, into: &mut Stmts<A>) -> Result<(), AllocError>
        ensures { Appends result into.old.items into.new.items
            (checks (by_names []) self.now.rounds.last (names_of self.now.globals.now)
            (numbers 0 self.now.rounds.last)) }
    {
        for round in 0..self.rounds.last {
            self.check(round, into)?;
        }
        Ok(())
    }
}

/// The body of the first procedure.
pub(crate) fn main_body<N: Allocator, A: Allocator + Copy>(
    alloc: &A,
    rounds: Rounds,
    globals: &[Name<N>],
    threads: &[Thread<N>],
) -> Result<Stmts<A>, AllocError>
    ensures { IfOk result (λ v. block_of v.items
        ≡ main (by_names []) rounds.last (names_of globals.now)
        (line_names (threads_of threads.now))) }
{
    let main = MainWriter {
        alloc,
        rounds,
        globals,
    };
    let mut body = Vec::new(*alloc);
    main.guesses(&mut body)?;
    main.starts(threads, &mut body)?;
    main.checks(&mut body)?;
    Ok(body)
}
