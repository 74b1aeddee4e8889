//! The batch that diagrams without one go to.

ghost use Rattle.std.specs.Prelude.{◌<◌, length, IfOk};
ghost use Rattle.path_sets.specs.Batches.{KeepMasks};

use crate::diagrams::batch::Batch;
use std::alloc::{AllocError, Allocator};

/// How many masks a batch has before diagrams without a batch go to the next one. So many stay in a processor's cache,
/// and with the masks that its own diagrams still get, a batch mostly has room for no more than 4,096.
const BATCH_MAX: usize = 3_840;

/// How many masks each batch but the first has room for from its start, so that it does not grow step by step.
const BATCH_ROOM: usize = 4_096;

/// The number of the batch that diagrams without one go to; a new batch is made if the last one has many masks.
pub(crate) fn batch_with_room<A: Allocator + Copy>(
    alloc: A,
    batches: &mut Vec<Batch<A>, A>,
) -> Result<usize, AllocError>
    ensures within { IfOk result (λ k. k < length batches.new.items) }
    ensures keep { KeepMasks batches.old.items batches.new.items }
{
    if let Some(batch) = batches.as_slice().last() {
        if batch.masks.len() < BATCH_MAX {
            return Ok(batches.len() - 1);
        }
    }
    let room = if batches.is_empty() { 0 } else { BATCH_ROOM };
    let batch = Batch::with_capacity(alloc, room)?;
    batches.push(batch)?;
    Ok(batches.len() - 1)
}
