//! How gathered masks go into the diagrams.

ghost use Rattle.std.specs.Prelude.{◌≡◌, ℕ, ◌<◌, ◌≤◌, List, Some, length, slice_get, IfOk};
ghost use Rattle.std.specs.Prelude.{OnOk};
ghost use Rattle.std.specs.Prelude.{IsPermutation};
ghost use Rattle.indexmap.specs.IndexMap.{index_map_len, keys};
ghost use Rattle.language.specs.Lists.{Member};
ghost use Rattle.path_sets.specs.declared.diagrams.insertion.Insertion.{Insertion};
ghost use Rattle.path_sets.specs.declared.diagrams.roots.DiagramKey.{DiagramKey};
ghost use Rattle.path_sets.specs.Edges.{mask_edges};
ghost use Rattle.path_sets.specs.Contents.{HasAll, DiagramsTake, all_masks, diagrams_in};
ghost use Rattle.path_sets.specs.Insertions.{AreInsertions, InInsertions};
ghost use Rattle.path_sets.specs.Batches.{AllWithin};
ghost use Rattle.path_sets.specs.GatheredKeys.{AreWithin, masks_of};

use crate::diagrams::batch::Batch;
use crate::diagrams::diagrams::Diagrams;
use crate::diagrams::gathered_key::GatheredKey;
use crate::diagrams::insertion::{Insertion, insertion_at, insertion_of, sort_key};
use crate::points::masks::Masks;
use std::alloc::{AllocError, Allocator};

/// The key at an index, and its mask.
fn gathered_key_at<A: Allocator + Copy>(
    masks: &Masks<GatheredKey, A>,
    at: usize,
) -> (GatheredKey, u64)
    requires { at < length masks.now.entries }
    ensures { slice_get masks.now.entries at ≡ Some result }
{
    match masks.get_index(at) {
        Some((key, mask)) => (*key, *mask),
        None => unreachable!(),
    }
}

/// The insertions of the keys.
fn insertions_of<A: Allocator + Copy>(
    masks: &Masks<GatheredKey, A>,
) -> Result<Vec<Insertion, A>, AllocError>
    ensures { IfOk result
        (λ insertions. (diagrams : List DiagramKey) → AreWithin diagrams masks.now.entries
        → AreInsertions diagrams (masks_of diagrams masks.now.entries) insertions.items) }
{
    let mut insertions = Vec::with_capacity(*masks.allocator(), masks.len())?;
    for at in 0..masks.len() {
        let (key, mask) = gathered_key_at(masks, at);
        insertions.push(insertion_of(key.diagram, key.values.word(), mask))?;
    }
    Ok(insertions)
}

/// Sorts insertions, so that those of a diagram come one after another, and within a diagram those whose first bits are
/// the same.
fn sort<A: Allocator + Copy>(insertions: &mut Vec<Insertion, A>) -> Result<(), AllocError>
    ensures { IsPermutation insertions.old.items insertions.new.items }
{
    insertions.sort_by_cached_key(sort_key)
}

/// How many insertions, from the first on, are of the diagram at an index, which is the diagram of the first insertion.
fn run_of(insertions: &[Insertion], diagram: usize) -> usize
    requires { 0 < length insertions.now }
    ensures within { result ≤ length insertions.now }
    ensures some { 0 < result }
    ensures all { (i : ℕ) (c : Insertion) → 0 < i → i < result → slice_get insertions.now i ≡ Some c
        → c.diagram ≡ diagram }
{
    let mut end = 1;
    while end < insertions.len() {
        if insertion_at(insertions, end).diagram != diagram {
            return end;
        }
        end += 1;
    }
    end
}

/// Puts the path edges of these insertions into the diagrams, each run of insertions of one diagram at once. If memory
/// is refused, some of them may be in.
fn put_insertions<A: Allocator + Copy>(
    merged: &mut Diagrams<A>,
    insertions: &[Insertion],
) -> Result<(), AllocError>
    requires { (c : Insertion) → Member c insertions.now
        → c.diagram < index_map_len merged.old.roots }
    ensures keys { keys merged.new.roots ≡ keys merged.old.roots }
    ensures takes { DiagramsTake
        (InInsertions (diagrams_in merged.old) insertions.now) merged.old merged.new }
    ensures all { OnOk result
        (HasAll (InInsertions (diagrams_in merged.old) insertions.now) merged.new) }
{
    let mut left = insertions;
    while !left.is_empty() {
        let diagram = insertion_at(left, 0).diagram;
        let (run, more) = left.split_at(run_of(left, diagram));
        merged.put(diagram, run)?;
        left = more;
    }
    Ok(())
}

/// Puts all path edges of the masks into the diagrams. If memory is refused, some of them may be in.
pub(crate) fn put_all<A: Allocator + Copy>(
    merged: &mut Diagrams<A>,
    masks: &Masks<GatheredKey, A>,
) -> Result<(), AllocError>
    requires { AreWithin (diagrams_in merged.old) masks.now.entries }
    ensures keys { keys merged.new.roots ≡ keys merged.old.roots }
    ensures takes { let gathered =
        mask_edges (masks_of (diagrams_in merged.old) masks.now.entries) in
        DiagramsTake (λ edge. Member edge gathered) merged.old merged.new }
    ensures all { let gathered = mask_edges (masks_of (diagrams_in merged.old) masks.now.entries) in
        OnOk result (HasAll (λ edge. Member edge gathered) merged.new) }
{
    let mut insertions = insertions_of(masks)?;
    sort(&mut insertions)?;
    put_insertions(merged, &insertions)
}

/// Puts all path edges of the batches into the diagrams. If memory is refused, some of them may be in.
pub(crate) fn put_batches<A: Allocator + Copy>(
    merged: &mut Diagrams<A>,
    batches: &[Batch<A>],
) -> Result<(), AllocError>
    requires { AllWithin (diagrams_in merged.old) batches.now }
    ensures takes { let gathered = mask_edges (all_masks merged.old batches.now) in
        DiagramsTake (λ edge. Member edge gathered) merged.old merged.new }
    ensures all { let gathered = mask_edges (all_masks merged.old batches.now) in
        OnOk result (HasAll (λ edge. Member edge gathered) merged.new) }
{
    for at in 0..batches.len() {
        put_all(merged, &batches[at].masks)?;
    }
    Ok(())
}
