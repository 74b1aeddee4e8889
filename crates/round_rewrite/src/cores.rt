//! The statements of the rewriting that hold others.

ghost use Rattle.std.specs.Prelude.{◌≡◌, true, [], ◌∷◌, ◌++◌, IfOk, reverse};
ghost use Rattle.language.specs.Tree.{const, any, negation, value, assign, assume};
ghost use Rattle.trees.specs.Trees.{simple, repeat, names_of, expr_of, rhs_of, rhss_of, deed_of};
ghost use Rattle.trees.specs.Trees.{block_of};
ghost use Rattle.round_rewrite.specs.Table.{each, in_round, rise, raised};
ghost use Rattle.round_rewrite.specs.Names.{fresh_name, bit_names};
ghost use Rattle.round_rewrite.specs.Writing.{carried, raised_bit, stop_testing, stopping};
ghost use Rattle.round_rewrite.specs.Writing.{failed};

use crate::block::{Stmts, push, push_made, single};
use crate::expression::{not, operation};
use crate::lists::{constants, put, put_made};
use crate::names::{bit, fixed};
use crate::writer::Writer;
use std::alloc::{AllocError, Allocator};
use trees::{Core, Expr, Name, Op, Rhs};

/// A constant as a right side.
pub(crate) fn constant<A: Allocator>(bit: bool) -> Rhs<A>
    ensures { rhs_of result ≡ value (const bit) }
{
    Rhs::Value(Expr::Const(bit))
}

/// Appends a name that occurs in no text to others.
pub(crate) fn push_name<A: Allocator + Copy>(
    alloc: &A,
    text: &str,
    into: Vec<Name<A>, A>,
) -> Result<Vec<Name<A>, A>, AllocError>
    ensures { IfOk result
        (λ v. names_of v.items ≡ names_of into.items ++ fresh_name text.now ∷ []) }
{
    let mut list = into;
    put_made(&mut list, fixed(*alloc, text))?;
    Ok(list)
}

/// The assignment of a constant to variables.
pub(crate) fn set_all<A: Allocator + Copy>(
    alloc: &A,
    bit: bool,
    targets: Vec<Name<A>, A>,
) -> Result<Core<A>, AllocError>
    ensures { IfOk result (λ c. deed_of c ≡ simple (assign (names_of targets.items)
        (each (value (const bit)) (names_of targets.items)))) }
{
    let sides = constants(*alloc, bit, &targets)?;
    Ok(Core::Assign(targets, sides))
}

/// The test of `stop__`: a thread that is stopped leaves.
pub(crate) fn stop_test<A: Allocator + Copy>(alloc: &A) -> Result<Core<A>, AllocError>
    ensures { IfOk result (λ c. deed_of c ≡ stop_testing) }
{
    let yes = single(alloc, Core::Return)?;
    let no = single(alloc, Core::Skip)?;
    let stop = fixed(*alloc, "stop__")?;
    Ok(Core::If(Rhs::Value(Expr::Var(stop)), yes, no))
}

/// The choice to stop.
pub(crate) fn stop_choice<A: Allocator + Copy>(alloc: &A) -> Result<Core<A>, AllocError>
    ensures { IfOk result (λ c. deed_of c ≡ stopping) }
{
    let stop = push_name(alloc, "stop__", Vec::new(*alloc))?;
    let yes = single(alloc, set_all(alloc, true, stop)?)?;
    let no = single(alloc, Core::Skip)?;
    Ok(Core::If(Rhs::Any, yes, no))
}

/// What follows if the right side of an assert is 0: `bad__` and `stop__` are raised, and the procedure is left.
pub(crate) fn failed<A: Allocator + Copy>(alloc: &A) -> Result<Stmts<A>, AllocError>
    ensures { IfOk result (λ v. block_of v.items ≡ failed) }
{
    let bad = push_name(alloc, "bad__", Vec::new(*alloc))?;
    let both = push_name(alloc, "stop__", bad)?;
    let mut block = Vec::new(*alloc);
    push_made(set_all(alloc, true, both), &mut block)?;
    push(Core::Return, &mut block)?;
    Ok(block)
}

/// Appends the `count` lowest variables of the round's number to others, the highest bit first.
pub(crate) fn push_bits<A: Allocator + Copy>(
    alloc: &A,
    count: u8,
    into: Vec<Name<A>, A>,
) -> Result<Vec<Name<A>, A>, AllocError>
    ensures { IfOk result
        (λ v. names_of v.items ≡ names_of into.items ++ reverse (bit_names count)) }
{
    let mut list = into;
    for number in (0..count).rev() {
        put_made(&mut list, bit(*alloc, number))?;
    }
    Ok(list)
}

/// What is carried out of the bits of the round's number up to this one if 1 is added.
fn carry<A: Allocator + Copy>(alloc: &A, number: u8) -> Result<Expr<A>, AllocError>
    ensures { IfOk result (λ e. expr_of e ≡ carried number) }
{
    let name = bit(*alloc, number)?;
    if number == 0 {
        return Ok(Expr::Var(name));
    }
    let below = carry(alloc, number - 1)?;
    operation(alloc, Op::And, Expr::Var(name), below)
}

/// A bit of the next round's number.
fn next_bit<A: Allocator + Copy>(alloc: &A, number: u8) -> Result<Expr<A>, AllocError>
    ensures { IfOk result (λ e. expr_of e ≡ raised_bit number) }
{
    let name = bit(*alloc, number)?;
    if number == 0 {
        return not(alloc, Expr::Var(name));
    }
    let below = carry(alloc, number - 1)?;
    operation(alloc, Op::Xor, Expr::Var(name), below)
}

/// A given number of bits of the next round's number, the highest bit first.
fn next_bits<A: Allocator + Copy>(alloc: &A, count: u8) -> Result<Vec<Rhs<A>, A>, AllocError>
    ensures { IfOk result (λ v. rhss_of v.items ≡ reverse (raised (bit_names count))) }
{
    let mut list = Vec::new(*alloc);
    for number in (0..count).rev() {
        put(&mut list, Rhs::Value(next_bit(alloc, number)?))?;
    }
    Ok(list)
}

impl<'a, N: Allocator, A: Allocator + Copy> Writer<'a, N, A> {
    ghost use Rattle.round_rewrite.specs.Writing.{naming_of};

    /// The assignment that raises the round's number by 1.
    fn next_round(&self) -> Result<Core<A>, AllocError>
        ensures { IfOk result (λ c. deed_of c
            ≡ simple
            (assign (reverse ((naming_of self.now).bits self.now.rounds.last))
            (reverse (raised ((naming_of self.now).bits self.now.rounds.last))))) }
    {
        let bits = self.rounds.bits();
        let targets = push_bits(self.alloc, bits, Vec::new(*self.alloc))?;
        let sides = next_bits(self.alloc, bits)?;
        Ok(Core::Assign(targets, sides))
    }

    /// The `assume` that there is a next round.
    fn not_last(&self) -> Result<Core<A>, AllocError>
        ensures { IfOk result
            (λ c. deed_of c ≡ simple (assume (value (negation
            (in_round (naming_of self.now) self.now.rounds.last self.now.rounds.last))))) }
    {
        let is_last = self.in_round(self.rounds.last)?;
        let other = not(self.alloc, is_last)?;
        Ok(Core::Assume(Rhs::Value(other)))
    }

    /// The loop of the prologue: on to the next round, any number of times, as long as there is one.
    pub(crate) fn rising(&self) -> Result<Core<A>, AllocError>
        ensures { IfOk result
            (λ c. deed_of c ≡ repeat any (rise (naming_of self.now) self.now.rounds.last)) }
    {
        let mut body = Vec::new(*self.alloc);
        push_made(self.not_last(), &mut body)?;
        push_made(self.next_round(), &mut body)?;
        Ok(Core::While(Rhs::Any, body))
    }
}
