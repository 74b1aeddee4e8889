//! Masks by their keys: the points that are reached of a block of 64.

ghost use Rattle.std.specs.Prelude.{◌≡◌, ◌<◌};
ghost use Rattle.indexmap.specs.IndexMap.{IsUnique, index_map_len, keys};
ghost use Rattle.path_sets.specs.Masks.{AddsPointAt};

use crate::points::mask::add_point;
use crate::points::seek::ByKey;
use std::alloc::Allocator;
use std::hash::Hash;

/// The masks that have any points.
pub(crate) type Masks<K, A> = ByKey<K, u64, A>;

/// Puts a point into the mask at an index. Returns whether the point is new.
pub(crate) fn add_point_at<K: Eq + Hash, A: Allocator + Copy>(
    masks: &mut Masks<K, A>,
    at: usize,
    bit: usize,
) -> bool
    requires bit { bit < 64 }
    requires within { at < index_map_len masks.old }
    requires unique { IsUnique K.eq masks.old }
    ensures adds { AddsPointAt at bit masks.old.entries masks.new.entries result }
    ensures keys { keys masks.new ≡ keys masks.old }
    ensures unique { IsUnique K.eq masks.new }
{
    add_point(&mut masks[at], bit)
}
