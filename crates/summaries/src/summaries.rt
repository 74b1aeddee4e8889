//! What the procedures of a program do as a whole.

ghost use Rattle.std.specs.Prelude.{◌≡◌, ◌<◌, ◌↔◌, length, slice_get, Some, IsTrue};
ghost use Rattle.flow_graph.specs.Bits.{bit_of};

use crate::pair::Pair;
use language::{WORD_BITS, Word};
use std::alloc::Allocator;
use std::marker::Model;

/// What one procedure does as a whole: with which valuations it is entered, and its pairs, both ascending.
#[derive(Drop)]
pub struct Summary<A: Allocator> {
    pub(crate) entries: Vec<Word, A>,
    pub(crate) pairs: Vec<Pair, A>,
}

impl<A: Allocator> Model for Summary<A> {
    ghost use Rattle.summaries.specs.Effects.{Effect};

    ghost Value = { Effect };

    ghost view = { λ s. record { entries = s.entries.items; pairs = s.pairs.items } };
}

/// With which valuations each procedure of a program is entered, and with which globals and result it is then left.
#[derive(Drop)]
pub struct Summaries<A: Allocator> {
    pub(crate) procedures: Vec<Summary<A>, A>,
    pub(crate) bad: usize,
}

impl<A: Allocator> Model for Summaries<A> {
    ghost use Rattle.summaries.specs.Effects.{Effects};

    ghost Value = { Effects };

    ghost view = { λ s. record { procedures = s.procedures.items; bad = s.bad } };
}

/// Whether a bit of a valuation is 1.
fn has_bit(values: Word, bit: usize) -> bool
    ensures { result ≡ bit_of values bit }
{
    bit < WORD_BITS as usize && values >> bit & 1 == 1
}

impl<A: Allocator> Summaries<A> {
    ghost use Rattle.summaries.specs.Effects.{Effect};
    ghost use Rattle.summaries.specs.Tabulated.{SomePairBad};

    /// How many procedures there are.
    pub fn len(&self) -> usize
        ensures { result ≡ length self.now.procedures }
    {
        self.procedures.len()
    }

    /// The valuations with which a procedure is entered, ascending.
    pub fn entries(&self, procedure: u8) -> &[Word]
        requires { procedure < length self.now.procedures }
        ensures { (s : Effect) → slice_get self.now.procedures procedure ≡ Some s
            → result.now ≡ s.entries }
    {
        let summary = &self.procedures[procedure as usize];
        summary.entries.as_slice()
    }

    /// The valuations with which a procedure is entered, each with the globals and the result that are then left,
    /// ascending.
    pub fn pairs(&self, procedure: u8) -> &[Pair]
        requires { procedure < length self.now.procedures }
        ensures { (s : Effect) → slice_get self.now.procedures procedure ≡ Some s
            → result.now ≡ s.pairs }
    {
        let summary = &self.procedures[procedure as usize];
        summary.pairs.as_slice()
    }

    /// Whether some pair of the first procedure has `bad__`.
    pub fn bad(&self) -> bool
        ensures { IsTrue result ↔ SomePairBad self.now }
    {
        let Some(main) = self.procedures.as_slice().first() else {
            return false;
        };
        for pair in &main.pairs {
            if has_bit(pair.b, self.bad) {
                return true;
            }
        }
        false
    }
}
