//! Numbered nodes that test one bit; no node occurs twice.

ghost use Rattle.std.specs.Prelude.{◌≡◌, ℕ, ◌+◌, ◌<◌, ◌^◌, Bool, cond, IfOk, ◌≤◌};
ghost use Rattle.language.specs.Words.{word_bits};
ghost use Rattle.path_sets.specs.Masks.{bit_of};
ghost use Rattle.path_sets.specs.Walks.{IsNumber};
ghost use Rattle.path_sets.specs.Diagrams.{accepts, AreOrdered, AreReduced, GoDown, KeepsNodes};
ghost use Rattle.path_sets.specs.Diagrams.{level_of};
ghost use Rattle.path_sets.specs.Walks.{StandOnce};

use crate::counting::bit_node::BitNode;
use crate::kept_nodes::{KeptNodes, index_of};
use indexmap::IndexSet;
use std::alloc::{AllocError, Allocator};

/// The number of the set of no valuations.
pub(crate) const EMPTY: u32 = 0;
/// The number of the set of all valuations.
pub(crate) const FULL: u32 = 1;
/// How many nodes there may be: their numbers, from 2 on, are below 2^32.
pub(crate) const MOST: usize = 4_294_967_293;

/// The nodes of reduced ordered decision diagrams: number n is the node at n - 2, whose children have smaller numbers
/// and later levels and differ. No node occurs twice, so that equal sets have equal numbers.
#[derive(Drop)]
pub(crate) struct BitNodes<A: Allocator> {
    pub(crate) kept: KeptNodes<BitNode, A>,
    ghost down: { GoDown kept.keys },
    ghost ordered: { AreOrdered kept.keys },
    ghost reduced: { AreReduced kept.keys },
    ghost once: { StandOnce kept.keys },
}

impl<A: Allocator + Copy> BitNodes<A> {
    /// No nodes; this takes no memory yet.
    pub(crate) fn new(alloc: A) -> Self {
        BitNodes {
            kept: IndexSet::new(alloc),
        }
    }

    /// The number of the set that has, of the valuations with a 0 at the level, those of one number, and of those with
    /// a 1 those of another.
    pub(crate) fn make(&mut self, level: u8, low: u32, high: u32) -> Result<u32, AllocError>
        requires level { level < word_bits }
        requires inside { (IsNumber self.old.kept.keys low) × (IsNumber self.old.kept.keys high) }
        requires deep { (level < level_of self.old.kept.keys low)
            × (level < level_of self.old.kept.keys high) }
        ensures keeps { KeepsNodes self.old.kept.keys self.new.kept.keys }
        ensures inside { IfOk result (λ n. IsNumber self.new.kept.keys n) }
        ensures deep { IfOk result (λ n. level ≤ level_of self.new.kept.keys n) }
        ensures joined { IfOk result (λ n. (v : ℕ) → accepts self.new.kept.keys n v
            ≡ cond (bit_of v level) (accepts self.old.kept.keys high v)
            (accepts self.old.kept.keys low v)) }
    {
        if low == high {
            return Ok(low);
        }
        if self.kept.len() >= MOST {
            return Err(AllocError);
        }
        let at = index_of(&mut self.kept, BitNode { level, low, high })?;
        Ok(at as u32 + 2)
    }
}
