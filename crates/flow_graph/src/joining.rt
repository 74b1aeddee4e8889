//! Joint tables, made of writes.

ghost use Rattle.std.specs.Prelude.{◌≡◌, ◌<◌, ◌≤◌, ◌^◌, true, false, None, ℕ, length, IfOk, IfSome};
ghost use Rattle.flow_graph.specs.Joint.{IsFormOf};
ghost use Rattle.flow_graph.specs.Joining.{reads_few, all_read_few, reads, some_reads, read_bits};
ghost use Rattle.flow_graph.specs.Joining.{placed, unwritten, all_bits, AreRows, chooses, all_choose};
ghost use Rattle.flow_graph.specs.Tables.{most_inputs, AreBits};
ghost use Rattle.resolved.specs.Limits.{most_places};

use crate::assignment::{Write, after_writes, masked};
use crate::formula::Formula;
use crate::joint::{Chosen, Form, JointTable};
use crate::side::CompiledSide;
use crate::windows::{MOST_INPUTS, Windows};
use arrayvec::ArrayVec;
use language::Word;
use resolved::MOST_PLACES;
use std::alloc::{AllocError, Allocator};

impl<A: Allocator> CompiledSide<A> {
    /// Whether this is a variable or a truth table, which read few bits.
    fn reads_few(&self) -> bool
        ensures { result ≡ reads_few self.now }
    {
        match self {
            CompiledSide::Value(Formula::Bit(_)) => true,
            CompiledSide::Value(Formula::Table(_)) => true,
            CompiledSide::Value(Formula::Cases(_)) => false,
            CompiledSide::Value(Formula::Code(_)) => false,
            CompiledSide::Any => false,
        }
    }

    /// Whether this is a variable or a truth table that reads a bit.
    fn reads(&self, bit: u8) -> bool
        ensures { result ≡ reads self.now bit }
    {
        match self {
            CompiledSide::Value(Formula::Bit(variable)) => bit == variable.bit,
            CompiledSide::Value(Formula::Table(table)) => table.inputs.has(bit),
            CompiledSide::Value(Formula::Cases(_)) => false,
            CompiledSide::Value(Formula::Code(_)) => false,
            CompiledSide::Any => false,
        }
    }
}

/// Whether all right sides are variables or truth tables.
fn all_read_few<A: Allocator>(writes: &[Write<A>]) -> bool
    ensures { result ≡ all_read_few writes.now }
{
    for write in writes {
        if !write.side.reads_few() {
            return false;
        }
    }
    true
}

/// Whether some variable or truth table reads a bit.
fn some_reads<A: Allocator>(writes: &[Write<A>], bit: u8) -> bool
    ensures { result ≡ some_reads writes.now bit }
{
    for write in writes {
        if write.side.reads(bit) {
            return true;
        }
    }
    false
}

/// The bits that variables and truth tables read, the lowest first; `None` if there are more than ten.
fn inputs_of<A: Allocator>(writes: &[Write<A>]) -> Option<ArrayVec<u8, MOST_INPUTS>>
    ensures some { IfSome result
        (λ bits. (bits.items ≡ read_bits writes.now most_places) × (length bits.items ≤ most_inputs)) }
    ensures none { result ≡ None → most_inputs < length (read_bits writes.now most_places) }
{
    let mut bits = ArrayVec::new();
    for bit in 0..MOST_PLACES {
        if some_reads(writes, bit as u8) {
            if bits.is_full() {
                return None;
            }
            bits.push(bit as u8);
        }
    }
    Some(bits)
}

/// The valuation that has the values of a row in these bits, and 0 elsewhere.
fn placed(bits: &[u8], row: u64) -> Word
    requires { AreBits bits.now }
    ensures { result ≡ placed bits.now row 0 }
{
    let mut values: Word = 0;
    let mut left = row;
    for bit in bits {
        values = masked(values, 1 << *bit, left % 2 == 1);
        left /= 2;
    }
    values
}

/// All bits but those that are written.
fn unwritten<A: Allocator>(writes: &[Write<A>]) -> Word
    ensures { result ≡ unwritten writes.now all_bits }
{
    let mut kept = Word::MAX;
    for write in writes {
        kept = masked(kept, write.mask, false);
    }
    kept
}

/// What is written in each row of these bits.
fn rows_of<A: Allocator + Clone>(
    alloc: &A,
    writes: &[Write<A>],
    bits: &[u8],
) -> Result<Vec<Word, A>, AllocError>
    requires bits { AreBits bits.now }
    requires few { length bits.now ≤ most_inputs }
    ensures { IfOk result
        (λ rows. AreRows writes.now bits.now rows.items (2 ^ length bits.now)) }
{
    let count: u64 = 1 << bits.len();
    let mut rows = Vec::with_capacity(alloc.clone()?, count as usize)?;
    for row in 0..count {
        let written = after_writes(writes, placed(bits, row), 0, 0);
        rows.push(written)?;
    }
    Ok(rows)
}

impl<A: Allocator> Write<A> {
    /// Whether this writes a `?` to a bit.
    fn chooses(&self, bit: u8) -> bool
        requires { bit < most_places }
        ensures { result ≡ chooses self.now bit }
    {
        match &self.side {
            CompiledSide::Any => self.mask == 1 << bit,
            CompiledSide::Value(_) => false,
        }
    }
}

/// Whether each of these writes a `?`, the first one to this bit and each other one to the next bit.
fn all_choose<A: Allocator>(writes: &[Write<A>], first: usize) -> bool
    ensures { result ≡ all_choose writes.now first }
{
    let mut bit = first;
    for write in writes {
        if bit >= MOST_PLACES || !write.chooses(bit as u8) {
            return false;
        }
        bit += 1;
    }
    true
}

/// The lowest bit, if each of these writes a `?` to the bit after that of the one before.
fn first_chosen<A: Allocator>(writes: &[Write<A>]) -> Option<u8>
    ensures some { IfSome result
        (λ first. (first < most_places) × (all_choose writes.now first ≡ true)) }
    ensures none { result ≡ None → (first : ℕ) → first < most_places → all_choose writes.now first ≡ false }
{
    for first in 0..MOST_PLACES {
        if all_choose(writes, first) {
            return Some(first as u8);
        }
    }
    None
}

/// How the next valuations of an assignment with these writes are computed: all is looked up at once if the right sides
/// read at most ten bits together, and a choice is put in its place at once if all are `?` for neighbouring bits.
pub(crate) fn form_of<A: Allocator + Clone>(
    alloc: &A,
    writes: &[Write<A>],
) -> Result<Form<A>, AllocError>
    ensures { IfOk result (λ form. IsFormOf form writes.now) }
{
    if writes.is_empty() {
        return Ok(Form::Same);
    }
    if let Some(first) = first_chosen(writes) {
        let kept = unwritten(writes);
        return Ok(Form::Chosen(Chosen { first, kept }));
    }
    if !all_read_few(writes) {
        return Ok(Form::Each);
    }
    let Some(bits) = inputs_of(writes) else {
        return Ok(Form::Each);
    };
    let rows = rows_of(alloc, writes, bits.as_slice())?;
    let kept = unwritten(writes);
    let inputs = Windows::new(bits.as_slice());
    Ok(Form::Joint(JointTable { inputs, kept, rows }))
}
