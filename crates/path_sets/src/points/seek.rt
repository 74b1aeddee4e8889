//! Maps in which the key that was used last is tried first.

ghost use Rattle.std.specs.Prelude.{◌≡◌, ◌<◌, ◌∷◌, ◌++◌, [], None, Some, slice_get, IfSome, IsNone};
ghost use Rattle.std.specs.Prelude.{◌↔◌, OnOk, OnErr, IsTrue};
ghost use Rattle.std.specs.Map.{lookup};
ghost use Rattle.indexmap.specs.IndexMap.{IsUnique, index_map_len, keys};
ghost use Rattle.path_sets.specs.Keys.{IsExact};

use indexmap::IndexMap;
use std::alloc::{AllocError, Allocator};
use std::hash::{BuildHasherDefault, FoldHasher, Hash};

/// Values by their keys, in the order in which the keys are first met.
pub(crate) type ByKey<K, V, A> = IndexMap<K, V, BuildHasherDefault<FoldHasher>, A>;

/// Whether a key is the one at an index.
#[inline(always)]
pub(crate) fn is_at<K: Eq + Hash, V, A: Allocator + Copy>(
    map: &ByKey<K, V, A>,
    at: usize,
    key: &K,
) -> bool
    requires { IsExact K.eq }
    ensures { IsTrue result ↔ (slice_get (keys map.now) at ≡ Some key.now) }
{
    match map.get_index(at) {
        Some((used, _)) => used == key,
        None => false,
    }
}

/// The index of a key, if it has a value.
#[inline(always)]
pub(crate) fn index_of<K: Eq + Hash, V, A: Allocator + Copy>(
    map: &ByKey<K, V, A>,
    key: &K,
) -> Option<usize>
    requires { IsExact K.eq }
    ensures here { IfSome result (λ at. slice_get (keys map.now) at ≡ Some key.now) }
    ensures within { IfSome result (λ at. at < index_map_len map.now) }
    ensures none { IsNone result → lookup (K.eq key.now) map.now.entries ≡ None }
{
    map.get_index_of(key)
}

/// The same, but the key at the index `last` is tried first.
#[inline(always)]
pub(crate) fn find<K: Eq + Hash, V, A: Allocator + Copy>(
    map: &ByKey<K, V, A>,
    last: usize,
    key: &K,
) -> Option<usize>
    requires { IsExact K.eq }
    ensures here { IfSome result (λ at. slice_get (keys map.now) at ≡ Some key.now) }
    ensures within { IfSome result (λ at. at < index_map_len map.now) }
    ensures none { IsNone result → lookup (K.eq key.now) map.now.entries ≡ None }
{
    if is_at(map, last, key) {
        return Some(last);
    }
    index_of(map, key)
}
