//! Joint tables: all that an assignment writes, by the bits that its right sides read.

ghost use Rattle.std.specs.Prelude.{◌≡◌, ◌<◌, ◌^◌, length};
ghost use Rattle.language.specs.Words.{word_bits};
ghost use Rattle.flow_graph.specs.Windows.{seen};

use crate::windows::Windows;
use language::Word;
use std::alloc::Allocator;

/// What an assignment writes, for each row of the bits that its right sides read.
#[derive(Drop)]
pub(crate) struct JointTable<A: Allocator> {
    pub(crate) inputs: Windows,
    /// 1 for each bit that is not written.
    pub(crate) kept: Word,
    /// The values of the bits that are written, by row.
    pub(crate) rows: Vec<Word, A>,
    pub(crate) ghost full: { length rows.items ≡ 2 ^ length (seen inputs.items.items) },
}

impl<A: Allocator> JointTable<A> {
    ghost use Rattle.flow_graph.specs.Joint.{joint_next};

    /// The next valuation.
    #[inline(always)]
    pub(crate) fn next(&self, values: Word) -> Word
        ensures { result ≡ joint_next self.now values }
    {
        let row = self.inputs.row(values);
        values & self.kept | self.rows[row as usize]
    }
}

/// Neighbouring bits that each get the value of a `?`, the lowest first.
#[derive(Drop)]
pub(crate) struct Chosen {
    /// The lowest of the bits.
    pub(crate) first: u8,
    /// 1 for each bit that is not written.
    pub(crate) kept: Word,
    pub(crate) ghost place: { first < word_bits },
}

impl Chosen {
    ghost use Rattle.flow_graph.specs.Joint.{chosen_next};

    /// The next valuation: the bits of the choice become the values of the bits that are written.
    #[inline(always)]
    pub(crate) fn next(&self, values: Word, choice: Word) -> Word
        ensures { result ≡ chosen_next self.now values choice }
    {
        values & self.kept | choice << self.first & !self.kept
    }
}

/// How the next valuations of an assignment are computed.
#[derive(Drop)]
pub(crate) enum Form<A: Allocator> {
    /// Nothing is written: the next valuation is the same.
    Same,
    /// No right side is `?`: all that is written is looked up at once.
    Joint(JointTable<A>),
    /// All right sides are `?`, for neighbouring bits: the choice is put there at once.
    Chosen(Chosen),
    /// One write after the other.
    Each,
}
