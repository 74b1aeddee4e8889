//! Numbered nodes that continue by two bits at once.

ghost use Rattle.std.specs.Prelude.{◌≡◌, ℕ, ◌+◌, ◌<◌, ◌^◌, IfOk};
ghost use Rattle.path_sets.specs.Walks.{IsNumber, StandOnce};
ghost use Rattle.path_sets.specs.Quads.{AreInside, KeepQuads, points_of, QuadsAreReduced};
ghost use Rattle.path_sets.specs.Quads.{QuadsGoDown, sees};

use crate::counting::bit_nodes::{EMPTY, FULL, MOST};
use crate::diagrams::quad::{NOTHING, Quad, child};
use crate::kept_nodes::{KeptNodes, index_of};
use indexmap::IndexSet;
use language::Word;
use std::alloc::{AllocError, Allocator};

/// The nodes of the diagrams that are kept: number n is the node at n - 2, whose children have smaller numbers; 0 and
/// 1 have no node and no points. At each node there is something, and no node occurs twice.
#[derive(Drop)]
pub(crate) struct Quads<A: Allocator> {
    pub(crate) kept: KeptNodes<Quad, A>,
    ghost down: { QuadsGoDown kept.keys },
    ghost reduced: { QuadsAreReduced kept.keys },
    ghost once: { StandOnce kept.keys },
}

impl<A: Allocator + Copy> Quads<A> {
    /// No nodes; this takes no memory yet.
    pub(crate) fn new(alloc: A) -> Self {
        Quads {
            kept: IndexSet::new(alloc),
        }
    }

    /// The points that a valuation is at, by the diagram of a number.
    pub(crate) fn points(&self, number: u32, values: Word) -> u64
        requires { IsNumber self.now.kept.keys number }
        ensures { result ≡ points_of self.now.kept.keys number values }
    {
        let mut at = number;
        let mut rest = values;
        while at > FULL {
            let quad = self.kept[(at - 2) as usize];
            if rest == 0 {
                return quad.points;
            }
            at = child(&quad, rest);
            rest /= 4;
        }
        0
    }

    /// The node of a number.
    pub(crate) fn node(&self, number: u32) -> Quad
        requires { IsNumber self.now.kept.keys number }
        ensures inside { AreInside self.now.kept.keys result }
        ensures same { (v : ℕ)
            → sees self.now.kept.keys result v ≡ points_of self.now.kept.keys number v }
    {
        if number > FULL {
            self.kept[(number - 2) as usize]
        } else {
            NOTHING
        }
    }

    /// The number of a node: 0 if there is nothing at it.
    pub(crate) fn make(&mut self, quad: Quad) -> Result<u32, AllocError>
        requires { AreInside self.old.kept.keys quad }
        ensures keeps { KeepQuads self.old.kept.keys self.new.kept.keys }
        ensures inside { IfOk result (λ n. IsNumber self.new.kept.keys n) }
        ensures same { IfOk result
            (λ n. (v : ℕ) → points_of self.new.kept.keys n v ≡ sees self.old.kept.keys quad v) }
    {
        if quad == NOTHING {
            return Ok(EMPTY);
        }
        if self.kept.len() >= MOST {
            return Err(AllocError);
        }
        let at = index_of(&mut self.kept, quad)?;
        Ok(at as u32 + 2)
    }

    /// The same nodes under the same numbers.
    pub(crate) fn copy(&self) -> Result<Self, AllocError>
        ensures { IfOk result (λ c. c.kept.keys ≡ self.now.kept.keys) }
    {
        Ok(Quads {
            kept: self.kept.clone()?,
        })
    }
}
