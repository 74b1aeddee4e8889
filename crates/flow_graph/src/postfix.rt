//! Postfix code for expressions.

ghost use Rattle.std.specs.Prelude.{◌≡◌, ◌==◌, ◌+◌, ◌∷◌, [], IfOk, cond, max, min};
ghost use Rattle.language.specs.Tree.{var};
ghost use Rattle.trees.specs.Trees.{name_of};
ghost use Rattle.flow_graph.specs.Bits.{bit_of};
ghost use Rattle.flow_graph.specs.Located.{located};
ghost use Rattle.flow_graph.specs.Postfix.{IsShallow, IsShallow-prop, IsStepped, after_steps, top};
ghost use Rattle.flow_graph.specs.Postfix.{need, Evaluates, PutsSteps, AreCodeOf};
ghost use Rattle.flow_graph.specs.Views.{over_bits, scope_seen, IsSmall};

use crate::bit::bit;
use crate::put::push;
use crate::scope::Scope;
use language::{WORD_BITS, Word};
use std::alloc::{AllocError, Allocator};
use trees::{Expr, Name, Op};

/// One step of postfix code, over a stack of values.
#[derive(Clone, Copy)]
pub(crate) enum Instruction {
    /// Puts the value of a bit on the stack.
    Read(u8),
    /// Puts a value on the stack.
    Constant(bool),
    /// Negates the top.
    Not,
    /// Takes two values, the right one from the top, and puts the operator's.
    Apply(Op),
    /// The same, with the left one on top.
    ApplySwapped(Op),
}

/// One more than the greatest number that can be doubled.
const HALF: u64 = 9_223_372_036_854_775_808;

/// The stack after a step; the stack is a number whose lowest bit is the top.
fn stepped(step: Instruction, values: Word, stack: u64) -> u64
    ensures { IsStepped step values stack result }
{
    match step {
        Instruction::Read(b) => stack % HALF * 2 + bit(values, b % WORD_BITS),
        Instruction::Constant(b) => stack % HALF * 2 + b as u64,
        Instruction::Not => stack / 2 * 2 + (1 - stack % 2),
        Instruction::Apply(op) => {
            let value = op.apply(stack / 2 % 2 == 1, stack % 2 == 1);
            stack / 4 * 2 + value as u64
        }
        Instruction::ApplySwapped(op) => {
            let value = op.apply(stack % 2 == 1, stack / 2 % 2 == 1);
            stack / 4 * 2 + value as u64
        }
    }
}

/// An expression as postfix code, which never needs a stack of more than 64 values.
#[derive(Drop)]
pub struct Postfix<A: Allocator> {
    pub(crate) steps: Vec<Instruction, A>,
    pub(crate) ghost shallow: { IsShallow 0 steps.items } by { IsShallow-prop 0 steps.items },
}

impl<A: Allocator> Postfix<A> {
    /// The value of the expression for these values.
    pub(crate) fn value(&self, values: Word) -> bool
        ensures { result ≡ top (after_steps (bit_of values) self.now.steps.items []) }
    {
        let mut stack: u64 = 0;
        for step in self.steps.as_slice() {
            stack = stepped(*step, values, stack);
        }
        stack % 2 == 1
    }
}

/// How many values a stack holds at most while two operands are evaluated that need these.
fn joint_need(left: u32, right: u32) -> u32
    ensures { result ≡ cond (left == right) (min (left + 1) 4294967295) (max left right) }
{
    if left == right {
        left.saturating_add(1)
    } else {
        left.max(right)
    }
}

impl<'a, N: Allocator> Scope<'a, N> {
    /// How many values a stack holds at most while an expression is evaluated, the operand that needs more first.
    fn need(&self, e: &Expr<N>) -> u32
        ensures { result ≡ need (over_bits self.now e.now) }
    {
        match e {
            Expr::Const(_) => 1,
            Expr::Var(_) => 1,
            Expr::Not(a) => self.need(a),
            Expr::Two(_, a, b) => joint_need(self.need(a), self.need(b)),
        }
    }

    /// The step that reads a variable: 0 if it is declared nowhere.
    fn reading(&self, x: &Name<N>) -> Instruction
        requires { IsSmall self.now }
        ensures { Evaluates (located (scope_seen self.now) (var (name_of x.now))) (result ∷ []) }
    {
        match self.bit(x) {
            Some(bit) => Instruction::Read(bit),
            None => Instruction::Constant(false),
        }
    }

    /// Appends the steps of an expression to others.
    fn put<A: Allocator>(
        &self,
        e: &Expr<N>,
        steps: &mut Vec<Instruction, A>,
    ) -> Result<(), AllocError>
        requires { IsSmall self.now }
        ensures { IfOk result
            (λ _. PutsSteps steps.old.items steps.new.items (over_bits self.now e.now)) }
    {
        match e {
            Expr::Const(b) => push(Instruction::Constant(*b), steps),
            Expr::Var(x) => push(self.reading(x), steps),
            Expr::Not(a) => {
                self.put(a, steps)?;
                push(Instruction::Not, steps)
            }
            Expr::Two(op, a, b) => {
                if self.need(a) < self.need(b) {
                    self.put(b, steps)?;
                    self.put(a, steps)?;
                    push(Instruction::ApplySwapped(*op), steps)
                } else {
                    self.put(a, steps)?;
                    self.put(b, steps)?;
                    push(Instruction::Apply(*op), steps)
                }
            }
        }
    }

    /// An expression as postfix code.
    pub(crate) fn postfix<A: Allocator>(
        &self,
        alloc: A,
        e: &Expr<N>,
    ) -> Result<Postfix<A>, AllocError>
        requires { IsSmall self.now }
        ensures { IfOk result (λ p. AreCodeOf p.steps.items (over_bits self.now e.now)) }
    {
        let mut steps = Vec::new(alloc);
        self.put(e, &mut steps)?;
        Ok(Postfix { steps })
    }
}
