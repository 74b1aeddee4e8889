//! Gathered masks that go into the diagrams together.

ghost use Rattle.std.specs.Prelude.{◌≡◌, ◌<◌, [], true, Some, slice_get, length, IfOk, OnErr};
ghost use Rattle.std.specs.Prelude.{◌+◌, ◌-◌, ◌^◌, min, IfSome, IsNone, IsSome};
ghost use Rattle.std.specs.Bool.{OnTrue};
ghost use Rattle.std.specs.Map.{keys_of};
ghost use Rattle.std.proofs.lemmas.Map.Keys.{IsDistinct-prop};
ghost use Rattle.indexmap.specs.IndexMap.{IsUnique, index_map_len, keys};
ghost use Rattle.language.specs.Lists.{Member};
ghost use Rattle.path_sets.specs.Edges.{edge_at};
ghost use Rattle.path_sets.specs.GatheredKeys.{gathered_key, gathered_key_eq, mask_key_at};

use crate::diagrams::diagrams::Diagrams;
use crate::diagrams::gathered_key::GatheredKey;
use crate::points::halves::Halves;
use crate::points::mask::add_point;
use crate::points::masks::{Masks, add_point_at};
use crate::points::seek::find;
use indexmap::IndexMap;
use indexmap::map::Entry;
use language::Word;
use std::alloc::{AllocError, Allocator};

/// Masks for some diagrams that were gathered one after another.
#[derive(Drop)]
pub(crate) struct Batch<A: Allocator> {
    pub(crate) masks: Masks<GatheredKey, A>,
    ghost unique: { IsUnique gathered_key_eq masks } by { IsDistinct-prop gathered_key_eq (keys masks) },
}

impl<A: Allocator + Copy> Batch<A> {
    ghost use Rattle.path_sets.specs.Contents.{AreCovered, batch_masks, GathersEdge, MayGather};
    ghost use Rattle.path_sets.specs.Contents.{diagrams_in, is_merged, IsFirstMask, NoKeyBut};

    /// No masks; this takes no memory yet.
    pub(crate) fn new(alloc: A) -> Self
        ensures { result.masks.entries ≡ [] }
    {
        Batch {
            masks: IndexMap::new(alloc),
        }
    }

    /// No masks, with room for so many.
    pub(crate) fn with_capacity(alloc: A, masks: usize) -> Result<Self, AllocError>
        ensures { IfOk result (λ batch. batch.masks.entries ≡ []) }
    {
        Ok(Batch {
            masks: IndexMap::with_capacity(alloc, masks)?,
        })
    }

    /// The points that a valuation is at by a diagram, with one more; `None` if it is at that point already.
    fn first_mask(merged: &Diagrams<A>, diagram: usize, values: Word, bit: usize) -> Option<u64>
        requires diagram { diagram < length (diagrams_in merged.now) }
        requires bit { bit < 64 }
        ensures some { IfSome result (IsFirstMask merged.now (gathered_key diagram values) bit) }
        ensures none { IsNone result → is_merged merged.now
            (edge_at (mask_key_at (diagrams_in merged.now) (gathered_key diagram values)) bit)
            ≡ true }
    {
        let mut mask = merged.points_at(diagram, values);
        if add_point(&mut mask, bit) {
            Some(mask)
        } else {
            None
        }
    }

    /// Puts a point into the mask at the index of its key. Returns whether the point is new.
    // The diagrams and the key are read by the clauses alone.
    #[inline(always)]
    pub(crate) fn gather_at(
        &mut self,
        merged: &Diagrams<A>,
        key: GatheredKey,
        at: usize,
        bit: usize,
    ) -> bool
        requires here { slice_get (keys self.old.masks) at ≡ Some key }
        requires may { MayGather merged.now key bit self.old }
        ensures ok { GathersEdge merged.now key bit (batch_masks merged.now self.old)
            (batch_masks merged.now self.new) result }
        ensures covers { AreCovered merged.now (batch_masks merged.now self.new) }
        ensures keys { NoKeyBut key self.old.masks.entries self.new.masks.entries }
        ensures same { keys self.new.masks ≡ keys self.old.masks }
    {
        add_point_at(&mut self.masks, at, bit)
    }

    /// Puts a point into the mask of its key, and makes `place` the index of that, if there is a mask then. Returns
    /// whether the point is new.
    #[inline(always)]
    pub(crate) fn gather(
        &mut self,
        place: &mut Option<usize>,
        waiting: &mut usize,
        merged: &Diagrams<A>,
        diagram: usize,
        values: Word,
        bit: usize,
    ) -> Result<bool, AllocError>
        requires { MayGather merged.now (gathered_key diagram values) bit self.old }
        ensures ok { IfOk result
            (GathersEdge merged.now (gathered_key diagram values) bit (batch_masks merged.now self.old)
            (batch_masks merged.now self.new)) }
        ensures err { OnErr result (self.new.masks.entries ≡ self.old.masks.entries) }
        ensures covers { AreCovered merged.now (batch_masks merged.now self.new) }
        ensures keys { NoKeyBut (gathered_key diagram values) self.old.masks.entries
            self.new.masks.entries }
        ensures place { IfSome place.new
            (λ at. slice_get (keys self.new.masks) at ≡ Some (gathered_key diagram values)) }
        ensures known { IfOk result (λ added. OnTrue added (IsSome place.new)) }
        ensures same { index_map_len self.new.masks ≡ index_map_len self.old.masks
            → waiting.new ≡ waiting.old }
        ensures more { index_map_len self.old.masks < index_map_len self.new.masks
            → waiting.new ≡ min (waiting.old + 1) (2 ^ 64 - 1) }
    {
        *place = None;
        let key = GatheredKey {
            diagram,
            values: Halves::new(values),
        };
        let entry = self.masks.entry(key)?;
        let at = entry.index();
        match entry {
            Entry::Occupied(known) => {
                *place = Some(at);
                Ok(add_point(known.into_mut(), bit))
            }
            Entry::Vacant(new) => {
                let Some(mask) = Batch::first_mask(merged, diagram, values, bit) else {
                    return Ok(false);
                };
                new.insert(mask);
                *place = Some(at);
                *waiting = waiting.saturating_add(1);
                Ok(true)
            }
        }
    }

    /// The mask of a key, if the batch has one.
    pub(crate) fn mask(&self, key: &GatheredKey) -> Option<u64>
        ensures some { IfSome result (λ m. Member (key.now, m) self.now.masks.entries) }
        ensures none { IsNone result → Member key.now (keys_of self.now.masks.entries) → ⊥ }
    {
        match find(&self.masks, 0, key) {
            Some(at) => Some(self.masks[at]),
            None => None,
        }
    }
}
