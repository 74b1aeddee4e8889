//! A set of path edges that keeps a decision diagram for each entry and block of points.

ghost use Rattle.std.specs.Prelude.{◌≡◌, ◌<◌, ◌↔◌, ◌^◌, ℕ, [], None, Some, slice_get, length};
ghost use Rattle.std.specs.Prelude.{IfOk, IfSome, IsTrue, OnErr, OnOk};
ghost use Rattle.language.specs.Lists.{Member, NoneTwice, NoneTwice-prop};
ghost use Rattle.language.specs.Words.{word_bits};
ghost use Rattle.path_sets.specs.declared.diagrams.diagram_edges.LastDiagram.{LastDiagram};
ghost use Rattle.path_sets.specs.Inserts.{HasAlso, IsLongerIf, IsNewIf};
ghost use Rattle.path_sets.specs.Suffixes.{HasNodes};
ghost use Rattle.path_sets.specs.Triples.{triple};
ghost use Rattle.path_sets.specs.Batches.{gathered_at};
ghost use Rattle.path_sets.specs.Contents.{BatchesFit, diagrams_in, IsKeyAt, IsLastOf, IsPlaced, whole};
ghost use Rattle.path_sets.specs.Rooms.{HasMadeRoom};

use crate::diagrams::batches::Batches;
use crate::diagrams::diagrams::Diagrams;
use crate::diagrams::gathered_key::GatheredKey;
use crate::diagrams::merging::{put_all, put_batches};
use crate::diagrams::roots::{DiagramKey, diagram_of};
use crate::path_set::PathSet;
use crate::points::halves::Halves;
use crate::points::mask::has_point;
use crate::points::mask_key::key_and_bit;
use language::{Point, Word};
use std::alloc::{AllocError, Allocator};

/// The diagram of the last path edge, which is usually that of the next one.
#[derive(Clone, Copy)]
pub(crate) struct LastDiagram {
    pub(crate) entry: Word,
    pub(crate) block: usize,
    /// Its index.
    pub(crate) diagram: usize,
    /// The number of its batch.
    pub(crate) batch: usize,
}

/// Path edges as decision diagrams over the bits of a valuation, one for each entry and block of 64 points, whose nodes
/// are shared (Bryant 1986). A diagram gives a valuation the mask of its points, two bits of it at each node, the least
/// first, and no further than its highest bit that is 1. The masks of new path edges are gathered, and put into the
/// diagrams many at a time.
#[derive(Drop)]
pub struct DiagramEdges<A: Allocator> {
    /// The masks that are gathered, with the points that the diagrams have at their keys.
    gathered: Batches<A>,
    merged: Diagrams<A>,
    last: Option<LastDiagram>,
    /// The valuation of the last path edge, which is usually that of the next one.
    values: Word,
    /// The index of its key in the batch of the last diagram, if it is known.
    place: Option<usize>,
    count: u64,
    ghost fit: { BatchesFit merged gathered.batches.items },
    ghost placed: { (l : LastDiagram) → last ≡ Some l
        → IsPlaced merged gathered.homes.items gathered.batches.items l },
    ghost known: { (l : LastDiagram) (at : ℕ) → last ≡ Some l → place ≡ Some at
        → IsKeyAt gathered.batches.items l values at },
    ghost counted: { count ≡ length (whole merged gathered.batches.items) },
    ghost once: { NoneTwice (whole merged gathered.batches.items) } by { NoneTwice-prop
        (whole merged gathered.batches.items) },
}

impl<A: Allocator + Copy> DiagramEdges<A> {
    /// Puts the masks of a batch into the diagrams. If memory is refused, all of them stay gathered.
    fn merge(&mut self, at: usize) -> Result<(), AllocError>
        requires { at < length self.old.gathered.batches.items }
        ensures members { whole self.new.merged self.new.gathered.batches.items
            ≡ whole self.old.merged self.old.gathered.batches.items }
        ensures gone { OnOk result (gathered_at self.new.gathered.batches.items at ≡ []) }
    {
        self.last = None;
        put_all(&mut self.merged, &self.gathered.batches[at].masks)?;
        self.gathered.clear(at);
        Ok(())
    }

    /// Puts the oldest of the masks that are gathered into the diagrams, if there are many. If memory is refused, all
    /// of them stay gathered.
    fn make_room(&mut self) -> Result<(), AllocError>
        ensures members { whole self.new.merged self.new.gathered.batches.items
            ≡ whole self.old.merged self.old.gathered.batches.items }
        ensures room { OnOk result (HasMadeRoom self.old.gathered self.new.gathered) }
    {
        match self.gathered.full() {
            Some(at) => self.merge(at),
            None => Ok(()),
        }
    }

    /// The index of a diagram; if it is not there yet, it is empty. No diagram is the last one then.
    fn settle(&mut self, diagram: DiagramKey) -> Result<usize, AllocError>
        ensures at { IfOk result (λ at. slice_get (diagrams_in self.new.merged) at ≡ Some diagram) }
        ensures members { whole self.new.merged self.new.gathered.batches.items
            ≡ whole self.old.merged self.old.gathered.batches.items }
        ensures last { self.new.last ≡ None }
        ensures gathered { self.new.gathered ≡ self.old.gathered }
    {
        self.last = None;
        self.merged.settle(diagram)
    }

    /// Whether the last path edge is of the diagram of an entry and a block.
    #[inline(always)]
    fn is_last(&self, entry: Word, block: usize) -> bool
        ensures { IsTrue result ↔ IsLastOf entry block self.now.last }
    {
        match &self.last {
            Some(last) => last.entry == entry && last.block == block,
            None => false,
        }
    }

    /// Looks the diagram of an entry and a block up, and makes it the last one; if it is not there yet, it is empty.
    /// Before that the oldest of the masks that are gathered go into the diagrams, if there are many.
    // Apart, since mostly the next path edge is of the last diagram.
    #[inline(never)]
    fn look_up(&mut self, entry: Word, block: usize) -> Result<(), AllocError>
        ensures last { OnOk result (IsLastOf entry block self.new.last) }
        ensures members { whole self.new.merged self.new.gathered.batches.items
            ≡ whole self.old.merged self.old.gathered.batches.items }
        ensures room { OnOk result (HasMadeRoom self.old.gathered self.new.gathered) }
    {
        self.make_room()?;
        let diagram = self.settle(DiagramKey {
            entry: Halves::new(entry),
            block,
        })?;
        let batch = self.gathered.batch_of(diagram)?;
        self.place = None;
        self.last = Some(LastDiagram {
            entry,
            block,
            diagram,
            batch,
        });
        Ok(())
    }

    /// Makes the diagram of an entry and a block the last one, with room for what is gathered.
    #[inline(always)]
    fn turn_to(&mut self, entry: Word, block: usize) -> Result<(), AllocError>
        ensures last { OnOk result (IsLastOf entry block self.new.last) }
        ensures members { whole self.new.merged self.new.gathered.batches.items
            ≡ whole self.old.merged self.old.gathered.batches.items }
        ensures room { OnOk result (HasMadeRoom self.old.gathered self.new.gathered) }
    {
        if self.gathered.are_many() || !self.is_last(entry, block) {
            return self.look_up(entry, block);
        }
        Ok(())
    }

    /// The index of the last path edge's key in its batch, if that is known and the key is that of an entry, a block and
    /// a valuation.
    #[inline(always)]
    fn last_place(&self, entry: Word, block: usize, values: Word) -> Option<usize>
        ensures some { IfSome result (λ at. (self.now.place ≡ Some at) × (self.now.values ≡ values)
            × IsLastOf entry block self.now.last) }
        ensures known { self.now.values ≡ values → IsLastOf entry block self.now.last
            → result ≡ self.now.place }
    {
        if self.values == values && self.is_last(entry, block) {
            return self.place;
        }
        None
    }

    /// Inserts a path edge, whether or not it is of the last diagram.
    // Apart, since mostly the place of the next path edge is that of the last one.
    #[inline(never)]
    fn insert_elsewhere(
        &mut self,
        entry: Word,
        point: Point,
        values: Word,
    ) -> Result<bool, AllocError>
        requires { let old = whole self.old.merged self.old.gathered.batches.items in
            length old < 2 ^ 63 }
        ensures members { let old = whole self.old.merged self.old.gathered.batches.items in
            let new = whole self.new.merged self.new.gathered.batches.items in
            OnOk result (HasAlso (triple entry point values) old new) }
        ensures new { let old = whole self.old.merged self.old.gathered.batches.items in
            IfOk result (IsNewIf (triple entry point values) old) }
        ensures len { let old = whole self.old.merged self.old.gathered.batches.items in
            let new = whole self.new.merged self.new.gathered.batches.items in
            IfOk result (IsLongerIf old new) }
        ensures err { OnErr result (whole self.new.merged self.new.gathered.batches.items
            ≡ whole self.old.merged self.old.gathered.batches.items) }
    {
        let (mask_key, bit) = key_and_bit(entry, point, values);
        self.turn_to(entry, mask_key.block)?;
        let Some(last) = self.last else {
            unreachable!()
        };
        self.values = values;
        let added = self.gathered.gather(
            &self.merged,
            &mut self.place,
            last.batch,
            last.diagram,
            values,
            bit,
        )?;
        if added {
            self.count += 1;
        }
        Ok(added)
    }

    /// How many inner nodes the diagram of an entry and a point has whose nodes test one bit each, bit 0 first: one
    /// for each level and each set of suffixes that some prefix of its members has there and that depends on the bit
    /// of the level. It takes memory in proportion to all diagrams; if memory is refused, the set stays as it is.
    pub fn nodes(&self, entry: Word, point: Point) -> Result<u64, AllocError>
        ensures { IfOk result (HasNodes word_bits (λ v. Member (triple entry point v)
            (whole self.now.merged self.now.gathered.batches.items))) }
    {
        let (mask_key, bit) = key_and_bit(entry, point, 0);
        let diagram = DiagramKey {
            entry: Halves::new(entry),
            block: mask_key.block,
        };
        let mut merged = self.merged.copy()?;
        put_batches(&mut merged, &self.gathered.batches)?;
        let nodes = merged.count(&diagram, bit);
        drop(merged);
        nodes
    }
}

impl<A: Allocator + Copy> PathSet<A> for DiagramEdges<A> {
    ghost members = { λ s. whole s.merged s.gathered.batches.items };

    fn empty(alloc: A) -> Self {
        DiagramEdges {
            gathered: Batches::new(alloc),
            merged: Diagrams::new(alloc),
            last: None,
            values: 0,
            place: None,
            count: 0,
        }
    }

    #[inline(always)]
    fn insert(&mut self, entry: Word, point: Point, values: Word) -> Result<bool, AllocError> {
        let (mask_key, bit) = key_and_bit(entry, point, values);
        let Some(at) = self.last_place(entry, mask_key.block, values) else {
            return self.insert_elsewhere(entry, point, values);
        };
        let Some(last) = self.last else {
            unreachable!()
        };
        let key = GatheredKey {
            diagram: last.diagram,
            values: mask_key.values,
        };
        let added = self
            .gathered
            .gather_at(&self.merged, last.batch, key, at, bit);
        if added {
            self.count += 1;
        }
        Ok(added)
    }

    fn contains(&self, entry: Word, point: Point, values: Word) -> bool {
        let (mask_key, bit) = key_and_bit(entry, point, values);
        let Some(diagram) = self.merged.find(&diagram_of(&mask_key)) else {
            return false;
        };
        let key = GatheredKey {
            diagram,
            values: mask_key.values,
        };
        match self.gathered.mask(&key) {
            Some(mask) => has_point(mask, bit),
            None => has_point(self.merged.points_at(diagram, values), bit),
        }
    }

    fn len(&self) -> u64 {
        self.count
    }

    ghost none_twice = { λ s. s.once };
}
