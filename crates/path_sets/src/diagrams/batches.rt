//! Path edges that are gathered, in batches, before they go into the diagrams.

ghost use Rattle.std.specs.Prelude.{◌≡◌, ◌<◌, ℕ, [], Some, length, slice_get, IfOk, OnErr};
ghost use Rattle.std.specs.Prelude.{◌≤◌, ◌⊎◌, ◌↔◌, ◌+◌, ◌-◌, ◌^◌, min, IfSome, IsNone, IsSome};
ghost use Rattle.std.specs.Prelude.{IsTrue, OnOk};
ghost use Rattle.std.specs.Bool.{OnTrue};
ghost use Rattle.std.specs.Map.{keys_of};
ghost use Rattle.language.specs.Lists.{Member};
ghost use Rattle.path_sets.specs.Batches.{AreHome, HasBatch, HasNoMasks, KeepMasks, gathered_at};
ghost use Rattle.path_sets.specs.Contents.{BatchesFit, GathersEdge, all_masks, diagrams_in};
ghost use Rattle.path_sets.specs.GatheredKeys.{gathered_key};

use crate::diagrams::batch::Batch;
use crate::diagrams::diagrams::Diagrams;
use crate::diagrams::gathered_key::GatheredKey;
use crate::diagrams::newest::batch_with_room;
use language::Word;
use std::alloc::{AllocError, Allocator};

/// How many masks may wait for each that has gone into the diagrams.
const WAITING_PER_MERGED: usize = 512;

/// The least limit on the number of masks that wait.
const MIN_WAITING: usize = 256;

/// The greatest limit on the number of masks that wait.
const MAX_WAITING: usize = 1_048_576;

/// The number that means no batch.
const NO_BATCH: usize = usize::MAX;

/// The masks that are gathered, in batches, of which the oldest goes into the diagrams first. A diagram keeps its batch
/// while that has any masks, and gets the newest one afterwards, so that most masks go into the diagrams only once.
#[derive(Drop)]
pub(crate) struct Batches<A: Allocator> {
    /// For each diagram, by its index, the number of the batch that it got last.
    pub(crate) homes: Vec<usize, A>,
    pub(crate) batches: Vec<Batch<A>, A>,
    /// The number of the oldest batch that may have masks.
    oldest: usize,
    /// How many masks wait.
    waiting: usize,
    /// How many masks have gone into the diagrams.
    gone: usize,
    /// How many masks may wait before the oldest batch goes into the diagrams.
    most: usize,
    ghost home: { AreHome homes.items batches.items },
}

/// Makes the list long enough for a diagram; the diagrams that are new in it have no batch.
fn fill<A: Allocator + Copy>(homes: &mut Vec<usize, A>, diagram: usize) -> Result<(), AllocError>
    ensures within { OnOk result (diagram < length homes.new.items) }
    ensures stay { (i k : ℕ) → slice_get homes.old.items i ≡ Some k
        → slice_get homes.new.items i ≡ Some k }
{
    while homes.len() <= diagram {
        homes.push(NO_BATCH)?;
    }
    Ok(())
}

impl<A: Allocator + Copy> Batches<A> {
    /// No masks; this takes no memory yet.
    pub(crate) fn new(alloc: A) -> Self
        ensures { result.batches.items ≡ [] }
    {
        Batches {
            homes: Vec::new(alloc),
            batches: Vec::new(alloc),
            oldest: 0,
            waiting: 0,
            gone: 0,
            most: MIN_WAITING,
        }
    }

    /// The number of a diagram's batch, if that has any masks.
    fn own_batch(&self, diagram: usize) -> Option<usize>
        ensures some { IfSome result
            (HasBatch self.now.homes.items self.now.batches.items diagram) }
        ensures none { IsNone result
            → HasNoMasks self.now.homes.items self.now.batches.items diagram }
    {
        if diagram >= self.homes.len() {
            return None;
        }
        let at = self.homes[diagram];
        if at >= self.batches.len() {
            return None;
        }
        if self.batches[at].masks.is_empty() {
            return None;
        }
        Some(at)
    }

    /// Gives a diagram whose batch has no masks the batch that new diagrams go to, and returns its number.
    fn settle(&mut self, diagram: usize) -> Result<usize, AllocError>
        requires { HasNoMasks self.old.homes.items self.old.batches.items diagram }
        ensures batch { IfOk result (HasBatch self.new.homes.items self.new.batches.items diagram) }
        ensures keep { KeepMasks self.old.batches.items self.new.batches.items }
    {
        fill(&mut self.homes, diagram)?;
        let at = batch_with_room(*self.homes.allocator(), &mut self.batches)?;
        self.homes[diagram] = at;
        Ok(at)
    }

    /// The number of the batch that a diagram's masks go to.
    pub(crate) fn batch_of(&mut self, diagram: usize) -> Result<usize, AllocError>
        ensures batch { IfOk result (HasBatch self.new.homes.items self.new.batches.items diagram) }
        ensures keep { KeepMasks self.old.batches.items self.new.batches.items }
    {
        match self.own_batch(diagram) {
            Some(at) => Ok(at),
            None => self.settle(diagram),
        }
    }

    /// Puts a point into the mask of its key in the batch of its diagram, and makes `place` the index of the key there.
    /// Returns whether the point is new.
    #[inline(always)]
    pub(crate) fn gather(
        &mut self,
        merged: &Diagrams<A>,
        place: &mut Option<usize>,
        batch: usize,
        diagram: usize,
        values: Word,
        bit: usize,
    ) -> Result<bool, AllocError>
        requires bit { bit < 64 }
        requires batch { HasBatch self.old.homes.items self.old.batches.items diagram batch }
        requires diagram { diagram < length (diagrams_in merged.now) }
        requires fit { BatchesFit merged.now self.old.batches.items }
        ensures ok { IfOk result (GathersEdge merged.now (gathered_key diagram values) bit
            (all_masks merged.now self.old.batches.items)
            (all_masks merged.now self.new.batches.items)) }
        ensures err { OnErr result
            (all_masks merged.now self.new.batches.items
            ≡ all_masks merged.now self.old.batches.items) }
        ensures place { IfSome place.new
            (λ at. slice_get (keys_of (gathered_at self.new.batches.items batch)) at
            ≡ Some (gathered_key diagram values)) }
        ensures known { IfOk result (λ added. OnTrue added (IsSome place.new)) }
        ensures fit { BatchesFit merged.now self.new.batches.items }
        ensures batch { HasBatch self.new.homes.items self.new.batches.items diagram batch }
        ensures same { length (gathered_at self.new.batches.items batch)
            ≡ length (gathered_at self.old.batches.items batch)
            → self.new.waiting ≡ self.old.waiting }
        ensures more { length (gathered_at self.old.batches.items batch)
            < length (gathered_at self.new.batches.items batch)
            → self.new.waiting ≡ min (self.old.waiting + 1) (2 ^ 64 - 1) }
    {
        self.batches[batch].gather(place, &mut self.waiting, merged, diagram, values, bit)
    }

    /// Puts a point into the mask at the index of its key in a batch. Returns whether the point is new.
    #[inline(always)]
    pub(crate) fn gather_at(
        &mut self,
        merged: &Diagrams<A>,
        batch: usize,
        key: GatheredKey,
        at: usize,
        bit: usize,
    ) -> bool
        requires bit { bit < 64 }
        requires batch { HasBatch self.old.homes.items self.old.batches.items key.diagram batch }
        requires here { slice_get (keys_of (gathered_at self.old.batches.items batch)) at
            ≡ Some key }
        requires diagram { key.diagram < length (diagrams_in merged.now) }
        requires fit { BatchesFit merged.now self.old.batches.items }
        ensures ok { GathersEdge merged.now key bit
            (all_masks merged.now self.old.batches.items)
            (all_masks merged.now self.new.batches.items) result }
        ensures fit { BatchesFit merged.now self.new.batches.items }
        ensures homes { self.new.homes ≡ self.old.homes }
        ensures batches { length self.new.batches.items ≡ length self.old.batches.items }
        ensures keys { keys_of (gathered_at self.new.batches.items batch)
            ≡ keys_of (gathered_at self.old.batches.items batch) }
    {
        self.batches[batch].gather_at(merged, key, at, bit)
    }

    /// The mask of a key, if it is gathered.
    pub(crate) fn mask(&self, key: &GatheredKey) -> Option<u64>
        ensures some { IfSome result (λ m. (k : ℕ)
            × Member (key.now, m) (gathered_at self.now.batches.items k)) }
        ensures none { IsNone result → (k : ℕ)
            → Member key.now (keys_of (gathered_at self.now.batches.items k)) → ⊥ }
    {
        match self.own_batch(key.diagram) {
            Some(at) => self.batches[at].mask(key),
            None => None,
        }
    }

    /// Whether as many masks wait as may.
    #[inline(always)]
    pub(crate) fn are_many(&self) -> bool
        ensures { IsTrue result ↔ (self.now.most ≤ self.now.waiting) }
    {
        self.waiting >= self.most
    }

    /// The number of the oldest batch, if as many masks wait as may.
    pub(crate) fn full(&self) -> Option<usize>
        ensures some { IfSome result (λ k. (k ≡ self.now.oldest)
            × (k < length self.now.batches.items)) }
        ensures many { IsSome result → self.now.most ≤ self.now.waiting }
        ensures room { IsNone result → (self.now.waiting < self.now.most)
            ⊎ (length self.now.batches.items ≤ self.now.oldest) }
    {
        if self.are_many() && self.oldest < self.batches.len() {
            return Some(self.oldest);
        }
        None
    }

    /// Empties a batch, whose masks have gone into the diagrams, and updates how many masks may wait.
    pub(crate) fn clear(&mut self, at: usize)
        requires { at < length self.old.batches.items }
        ensures here { gathered_at self.new.batches.items at ≡ [] }
        ensures others { (k : ℕ) → (k ≡ at → ⊥)
            → gathered_at self.new.batches.items k ≡ gathered_at self.old.batches.items k }
    {
        let gone = self.batches[at].masks.len();
        self.waiting = self.waiting.saturating_sub(gone);
        self.gone = self.gone.saturating_add(gone);
        self.most = self
            .gone
            .saturating_mul(WAITING_PER_MERGED)
            .max(MIN_WAITING)
            .min(MAX_WAITING);
        if at + 1 < self.batches.len() {
            self.oldest = at + 1;
        }
        self.batches[at] = Batch::new(*self.homes.allocator());
    }
}
