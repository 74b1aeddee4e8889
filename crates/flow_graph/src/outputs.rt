//! The outputs of truth tables: in words, each of them those of 64 rows.

ghost use Rattle.std.specs.Prelude.{◌≡◌, ◌<◌, ◌≤◌, ◌^◌, ◌*◌, ℕ, Bool, get_or, take, IfOk, IfSome};
ghost use Rattle.language.specs.Value.{operate};
ghost use Rattle.trees.specs.Trees.{operator_of};
ghost use Rattle.flow_graph.specs.Bits.{bit_of};
ghost use Rattle.flow_graph.specs.Tables.{most_inputs, most_rows, word_rows, output};
ghost use Rattle.flow_graph.specs.Formulas.{words_of};

use std::alloc::{AllocError, Allocator};
use trees::Op;

/// How many rows a word has the outputs of: those of six inputs.
pub(crate) const WORD_ROWS: u64 = 64;

/// The most words that a table has.
pub(crate) const WORDS: usize = 16;

/// A word of 1 in each row.
pub(crate) const ALL: u64 = u64::MAX;

/// The outputs of a table, each word those of 64 rows.
#[derive(Drop)]
pub(crate) enum Outputs<A: Allocator> {
    /// Those of at most six inputs.
    One(u64),
    /// Those of more inputs.
    More(Vec<u64, A>),
}

impl<A: Allocator> Outputs<A> {
    /// The word with this number; 0 after the last.
    #[inline(always)]
    pub(crate) fn word(&self, at: u64) -> u64
        ensures { result ≡ get_or (words_of self.now) at 0 }
    {
        match self {
            Outputs::One(word) => { if at == 0 { *word } else { 0 } }
            Outputs::More(words) => match words.get(at as usize) {
                Some(word) => *word,
                None => 0,
            },
        }
    }
}

/// The outputs of the input in this slot.
pub(crate) fn outputs_of_slot(slot: usize) -> [u64; WORDS]
    requires { slot < most_inputs }
    ensures { (j : ℕ) → j < most_rows → output result j ≡ bit_of j slot }
{
    match slot {
        0 => [0xAAAA_AAAA_AAAA_AAAA; WORDS],
        1 => [0xCCCC_CCCC_CCCC_CCCC; WORDS],
        2 => [0xF0F0_F0F0_F0F0_F0F0; WORDS],
        3 => [0xFF00_FF00_FF00_FF00; WORDS],
        4 => [0xFFFF_0000_FFFF_0000; WORDS],
        5 => [0xFFFF_FFFF_0000_0000; WORDS],
        6 => [
            0, ALL, 0, ALL, 0, ALL, 0, ALL, 0, ALL, 0, ALL, 0, ALL, 0, ALL,
        ],
        7 => [
            0, 0, ALL, ALL, 0, 0, ALL, ALL, 0, 0, ALL, ALL, 0, 0, ALL, ALL,
        ],
        8 => [
            0, 0, 0, 0, ALL, ALL, ALL, ALL, 0, 0, 0, 0, ALL, ALL, ALL, ALL,
        ],
        _ => [
            0, 0, 0, 0, 0, 0, 0, 0, ALL, ALL, ALL, ALL, ALL, ALL, ALL, ALL,
        ],
    }
}

/// The outputs of a constant.
pub(crate) fn outputs_of_constant(value: bool) -> [u64; WORDS]
    ensures { (j : ℕ) → j < most_rows → output result j ≡ value }
{
    if value { [ALL; WORDS] } else { [0; WORDS] }
}

/// The outputs of an operator in 64 rows, for those of its operands.
fn combined_word(op: Op, left: u64, right: u64) -> u64
    ensures { (j : ℕ) → j < word_rows
        → bit_of result j ≡ operate (operator_of op) (bit_of left j) (bit_of right j) }
{
    match op {
        Op::Implies => !left | right,
        Op::Or => left | right,
        Op::Xor => left ^ right,
        Op::And => left & right,
        Op::Equal => !left ^ right,
        Op::Differs => left ^ right,
    }
}

/// The outputs of an operator for those of its operands.
pub(crate) fn combined(op: Op, left: &[u64; WORDS], right: &[u64; WORDS]) -> [u64; WORDS]
    ensures { (j : ℕ) → j < most_rows →
        output result j ≡ operate (operator_of op) (output left.now j) (output right.now j) }
{
    let mut outputs = [0; WORDS];
    for at in 0..WORDS {
        outputs[at] = combined_word(op, left[at], right[at]);
    }
    outputs
}

/// The outputs of an operator if those of its left operand decide; `None` if they depend on the right one too.
pub(crate) fn decided(op: Op, left: &[u64; WORDS]) -> Option<[u64; WORDS]>
    ensures { IfSome result (λ w. (j : ℕ) (right : Bool) → j < most_rows →
        output w j ≡ operate (operator_of op) (output left.now j) right) }
{
    match op {
        Op::And if *left == [0; WORDS] => Some([0; WORDS]),
        Op::Or if *left == [ALL; WORDS] => Some([ALL; WORDS]),
        Op::Implies if *left == [0; WORDS] => Some([ALL; WORDS]),
        _ => None,
    }
}

/// How many words the outputs of a given number of inputs take.
pub(crate) fn words_for(inputs: usize) -> usize
    requires { inputs ≤ most_inputs }
    ensures enough { 2 ^ inputs ≤ word_rows * result }
    ensures few { result ≤ 16 }
{
    match inputs {
        10 => 16,
        9 => 8,
        8 => 4,
        7 => 2,
        _ => 1,
    }
}

/// The first of these words, as many as there are to be.
pub(crate) fn first_words<A: Allocator + Clone>(
    alloc: &A,
    all: &[u64; WORDS],
    words: usize,
) -> Result<Outputs<A>, AllocError>
    requires { words ≤ 16 }
    ensures { IfOk result (λ outputs. words_of outputs ≡ take words all.now) }
{
    if words == 1 {
        Ok(Outputs::One(all[0]))
    } else {
        Ok(Outputs::More(Vec::from_slice(alloc.clone()?, &all[..words])?))
    }
}
