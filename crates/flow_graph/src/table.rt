//! Truth tables for expressions of at most ten bits.

ghost use Rattle.std.specs.Prelude.{◌≡◌, ◌<◌, ◌≤◌, length, IfOk, IfSome};
ghost use Rattle.flow_graph.specs.Tables.{most_inputs, Tabulates, ReadsBit, AreBits};
ghost use Rattle.flow_graph.specs.Tables.{Widens};
ghost use Rattle.flow_graph.specs.Views.{over_bits, IsSmall};
ghost use Rattle.resolved.specs.Limits.{most_places};

use crate::outputs::{
    ALL, Outputs, WORD_ROWS, WORDS, combined, decided, first_words, outputs_of_constant,
    outputs_of_slot, words_for,
};
use crate::row::{KnownBits, slot_of};
use crate::scope::Scope;
use crate::windows::{MOST_INPUTS, Windows};
use arrayvec::ArrayVec;
use language::Word;
use resolved::MOST_PLACES;
use std::alloc::{AllocError, Allocator};
use trees::{Expr, Op};

/// An expression as a truth table: if input i has the value of bit i of j for each i, the expression has the value of
/// output j.
#[derive(Drop)]
pub struct TruthTable<A: Allocator> {
    pub(crate) inputs: Windows,
    pub(crate) outputs: Outputs<A>,
}

impl<A: Allocator> TruthTable<A> {
    ghost use Rattle.flow_graph.specs.Formulas.{table_worth};

    /// The value of the expression for these values.
    #[inline(always)]
    pub(crate) fn value(&self, values: Word) -> bool
        ensures { result ≡ table_worth self.now values }
    {
        let row = self.inputs.row(values);
        self.outputs.word(row / WORD_ROWS) >> (row % WORD_ROWS) & 1 == 1
    }
}

/// The outputs of a bit, which becomes an input if it was not one; `None` if there are ten others.
fn read(inputs: &mut ArrayVec<u8, MOST_INPUTS>, bit: u8) -> Option<[u64; WORDS]>
    ensures widens { Widens inputs.old.items inputs.new.items }
    ensures bits { bit < most_places → AreBits inputs.old.items → AreBits inputs.new.items }
    ensures few { length inputs.old.items ≤ most_inputs → length inputs.new.items ≤ most_inputs }
    ensures outputs { IfSome result (λ w. ReadsBit inputs.new.items w bit) }
{
    let slot = slot_of(inputs.as_slice(), bit);
    if slot < inputs.len() {
        return Some(outputs_of_slot(slot));
    }
    match inputs.try_push(bit) {
        Ok(()) => Some(outputs_of_slot(slot)),
        Err(_) => None,
    }
}

/// These bits in order, so that neighbours are read together. The order makes no difference to the value of a table.
fn in_order(bits: &[u8]) -> ArrayVec<u8, MOST_INPUTS>
    ensures { AreBits result.items }
{
    let mut sorted = ArrayVec::new();
    for bit in 0..MOST_PLACES {
        if slot_of(bits, bit as u8) < bits.len() && sorted.len() < MOST_INPUTS {
            sorted.push(bit as u8);
        }
    }
    sorted
}

impl<'a, N: Allocator> Scope<'a, N> {
    ghost use Rattle.flow_graph.specs.Formulas.{IsTruthTableIn};

    /// The outputs of an expression, given the known values. Its other bits become inputs if they were not; `None` if
    /// there would be more than ten inputs. If the left operand decides, the right one adds no inputs.
    fn outputs(
        &self,
        e: &Expr<N>,
        known: &KnownBits<'_>,
        inputs: &mut ArrayVec<u8, MOST_INPUTS>,
    ) -> Option<[u64; WORDS]>
        requires small { IsSmall self.now }
        requires known { length known.now.bits.now ≤ most_inputs }
        requires bits { AreBits inputs.old.items }
        requires few { length inputs.old.items ≤ most_inputs }
        ensures widens { Widens inputs.old.items inputs.new.items }
        ensures bits { AreBits inputs.new.items }
        ensures few { length inputs.new.items ≤ most_inputs }
        ensures outputs { IfSome result
            (λ w. Tabulates known.now.bits.now known.now.row inputs.new.items w
            (over_bits self.now e.now)) }
    {
        match e {
            Expr::Const(b) => Some(outputs_of_constant(*b)),
            Expr::Var(x) => match self.bit(x) {
                Some(bit) => match known.value(bit) {
                    Some(b) => Some(outputs_of_constant(b)),
                    None => read(inputs, bit),
                },
                None => Some(outputs_of_constant(false)),
            },
            Expr::Not(a) => {
                let of = self.outputs(a, known, inputs)?;
                Some(combined(Op::Xor, &of, &[ALL; WORDS]))
            }
            Expr::Two(op, a, b) => {
                let left = self.outputs(a, known, inputs)?;
                if let Some(whole) = decided(*op, &left) {
                    return Some(whole);
                }
                let right = self.outputs(b, known, inputs)?;
                Some(combined(*op, &left, &right))
            }
        }
    }

    /// An expression as a truth table, given the known values; `None` if it would have more than ten inputs.
    pub(crate) fn table<A: Allocator + Clone>(
        &self,
        alloc: &A,
        e: &Expr<N>,
        known: &KnownBits<'_>,
    ) -> Result<Option<TruthTable<A>>, AllocError>
        requires small { IsSmall self.now }
        requires known { length known.now.bits.now ≤ most_inputs }
        ensures { IfOk result
            (λ made. IfSome made
            (λ t. IsTruthTableIn t known.now.bits.now known.now.row (over_bits self.now e.now))) }
    {
        let mut found = ArrayVec::new();
        if self.outputs(e, known, &mut found).is_none() {
            return Ok(None);
        }
        let mut inputs = in_order(found.as_slice());
        let Some(all) = self.outputs(e, known, &mut inputs) else {
            return Ok(None);
        };
        let outputs = first_words(alloc, &all, words_for(inputs.len()))?;
        let inputs = Windows::new(inputs.as_slice());
        Ok(Some(TruthTable { inputs, outputs }))
    }
}
