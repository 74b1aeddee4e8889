//! Diagrams of valuations with their points, by their keys.

ghost use Rattle.std.specs.Prelude.{◌≡◌, ℕ, ◌+◌, ◌*◌, ◌<◌, ◌/◌, ◌%◌, ◌^◌, ◌⊎◌, true, false, IfOk};
ghost use Rattle.std.specs.Prelude.{None, Some, slice_get, OnOk, IfSome, IsNone};
ghost use Rattle.std.specs.Map.{lookup};
ghost use Rattle.language.specs.Words.{word_bits};
ghost use Rattle.path_sets.specs.Suffixes.{HasNodes};
ghost use Rattle.std.proofs.lemmas.Map.Keys.{IsDistinct-prop};
ghost use Rattle.indexmap.specs.IndexMap.{IsUnique, index_map_len, keys};
ghost use Rattle.path_sets.specs.Triples.{Triple, triple};
ghost use Rattle.path_sets.specs.Masks.{bit_of};
ghost use Rattle.path_sets.specs.declared.diagrams.roots.DiagramKey.{DiagramKey};
ghost use Rattle.path_sets.specs.Insertions.{RootsStay};
ghost use Rattle.path_sets.specs.Diagrams.{HaveNumbers, InRun, diagram_eq};

use crate::counting::inner::inner_nodes;
use crate::counting::one_bit::one_bit_diagram;
use crate::diagrams::insertion::Insertion;
use crate::diagrams::quads::Quads;
use crate::diagrams::roots::{DiagramKey, Roots, index_of, root, root_at, set_root};
use crate::diagrams::union::union;
use crate::points::seek::find;
use indexmap::IndexMap;
use language::Word;
use std::alloc::{AllocError, Allocator};

/// In how many slots the blocks are.
const SLOTS: usize = 4;

/// The slot of a diagram's block; blocks that follow one another are in different slots.
fn slot_of(diagram: &DiagramKey) -> usize
    ensures { result ≡ diagram.now.block % 4 }
{
    diagram.block % SLOTS
}

/// Diagrams, which share their nodes. Each gives each valuation the mask of its points.
#[derive(Drop)]
pub(crate) struct Diagrams<A: Allocator> {
    pub(crate) nodes: Quads<A>,
    pub(crate) roots: Roots<A>,
    /// For each slot the index of the diagram that was used last of its blocks. The next path edge of such a block is
    /// usually of the same diagram.
    last: [usize; SLOTS],
    ghost unique: { IsUnique diagram_eq roots } by { IsDistinct-prop diagram_eq (keys roots) },
    ghost numbers: { HaveNumbers nodes.kept.keys roots.entries },
}

impl<A: Allocator + Copy> Diagrams<A> {
    ghost use Rattle.path_sets.specs.Contents.{DiagramsTake, diagrams_in, is_merged};

    /// No diagrams; this takes no memory yet.
    pub(crate) fn new(alloc: A) -> Self
        ensures { (edge : Triple) → is_merged result edge ≡ false }
    {
        Diagrams {
            nodes: Quads::new(alloc),
            roots: IndexMap::new(alloc),
            last: [0; SLOTS],
        }
    }

    /// The same diagrams under the same keys.
    pub(crate) fn copy(&self) -> Result<Self, AllocError>
        ensures nodes { IfOk result (λ m. m.nodes.kept.keys ≡ self.now.nodes.kept.keys) }
        ensures roots { IfOk result (λ m. m.roots.entries ≡ self.now.roots.entries) }
    {
        let nodes = self.nodes.copy()?;
        Ok(Diagrams {
            nodes,
            roots: self.roots.clone()?,
            last: [0; SLOTS],
        })
    }

    /// The index of a diagram, if it is there.
    pub(crate) fn find(&self, diagram: &DiagramKey) -> Option<usize>
        ensures here { IfSome result (λ at. slice_get (keys self.now.roots) at ≡ Some diagram.now) }
        ensures none { IsNone result
            → lookup (diagram_eq diagram.now) self.now.roots.entries ≡ None }
    {
        find(&self.roots, self.last[slot_of(diagram)], diagram)
    }

    /// The points that a valuation is at by the diagram at an index.
    pub(crate) fn points_at(&self, at: usize, values: Word) -> u64
        requires { at < index_map_len self.now.roots }
        ensures { (diagram : DiagramKey) (bit : ℕ)
            → slice_get (diagrams_in self.now) at ≡ Some diagram
            → bit < 64 → bit_of result bit
            ≡ is_merged self.now (triple diagram.entry (64 * diagram.block + bit) values) }
    {
        self.nodes.points(root_at(&self.roots, at), values)
    }

    /// The index of a diagram; if it is not there yet, it is empty. If memory is refused, the diagrams stay as they
    /// were.
    pub(crate) fn settle(&mut self, diagram: DiagramKey) -> Result<usize, AllocError>
        ensures nodes { self.new.nodes ≡ self.old.nodes }
        ensures at { IfOk result (λ at. slice_get (keys self.new.roots) at ≡ Some diagram) }
        ensures stay { RootsStay self.old.roots.entries self.new.roots.entries }
        ensures last { IfOk result
            (λ at. slice_get self.new.last (diagram.block % 4) ≡ Some at) }
    {
        let slot = slot_of(&diagram);
        let at = index_of(&mut self.roots, self.last[slot], diagram)?;
        self.last[slot] = at;
        Ok(at)
    }

    /// Puts the points of insertions, whatever their diagrams, into the diagram at an index. If memory is refused, none
    /// of them is in.
    pub(crate) fn put(&mut self, at: usize, run: &[Insertion]) -> Result<(), AllocError>
        requires { at < index_map_len self.old.roots }
        ensures keys { keys self.new.roots ≡ keys self.old.roots }
        ensures takes { (diagram : DiagramKey) → slice_get (diagrams_in self.old) at ≡ Some diagram
            → DiagramsTake (InRun diagram run.now) self.old self.new }
        ensures all { OnOk result ((diagram : DiagramKey) (edge : Triple)
            → slice_get (diagrams_in self.old) at ≡ Some diagram → InRun diagram run.now edge
            → is_merged self.new edge ≡ true) }
    {
        let root = root_at(&self.roots, at);
        let number = union(&mut self.nodes, run, root, 0)?;
        set_root(&mut self.roots, at, number);
        Ok(())
    }

    /// How many inner nodes the diagram of the set at a point has; the point is given as a bit of a mask.
    pub(crate) fn count(&self, diagram: &DiagramKey, bit: usize) -> Result<u64, AllocError>
        requires { bit < 64 }
        ensures { IfOk result (HasNodes word_bits (λ v. (v < 2 ^ word_bits)
            × (is_merged self.now (triple diagram.now.entry (64 * diagram.now.block + bit) v)
            ≡ true))) }
    {
        let (nodes, number) = one_bit_diagram(
            &self.nodes,
            root(&self.roots, self.last[slot_of(diagram)], diagram),
            bit,
        )?;
        let count = inner_nodes(&nodes, number);
        drop(nodes);
        count
    }
}
