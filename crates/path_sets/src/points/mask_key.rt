//! What a mask is kept for.

ghost use Rattle.std.specs.Prelude.{◌≡◌, ◌<◌};
ghost use Rattle.path_sets.specs.Edges.{edge_at};
ghost use Rattle.path_sets.specs.Triples.{triple};

use crate::points::halves::Halves;
use language::{Point, Word};

/// How many points a block has: one for each bit of a mask.
pub(crate) const BLOCK: usize = 64;

/// The key of a mask: the valuation on entry, the valuation at the points, and the number of their block.
#[derive(Clone, Copy, PartialEq, Eq, Hash)]
pub(crate) struct MaskKey {
    pub(crate) entry: Halves,
    pub(crate) values: Halves,
    pub(crate) block: usize,
}

/// The key of the mask that has an edge, and the bit of its point there.
pub(crate) fn key_and_bit(entry: Word, point: Point, values: Word) -> (MaskKey, usize)
    ensures edge { edge_at result.0 result.1 ≡ triple entry point values }
    ensures bit { result.1 < 64 }
{
    let block = point / BLOCK;
    let mask_key = MaskKey {
        entry: Halves::new(entry),
        values: Halves::new(values),
        block,
    };
    (mask_key, point % BLOCK)
}
