//! Numbered nodes, of which none is kept twice.

ghost use Rattle.std.specs.Prelude.{◌≡◌, IfOk, Some, slice_get, length, ◌≤◌};
ghost use Rattle.path_sets.specs.Keys.{IsExact};
ghost use Rattle.path_sets.specs.Walks.{IsGrown};

use indexmap::IndexSet;
use std::alloc::{AllocError, Allocator};
use std::hash::{BuildHasherDefault, FoldHasher, Hash};

/// Nodes in the order of their numbers.
pub(crate) type KeptNodes<T, A> = IndexSet<T, BuildHasherDefault<FoldHasher>, A>;

/// The index of a node; a node that has none is appended.
pub(crate) fn index_of<T: Eq + Hash + Copy, A: Allocator + Copy>(
    kept: &mut KeptNodes<T, A>,
    node: T,
) -> Result<usize, AllocError>
    requires { IsExact T.eq }
    ensures at { IfOk result (λ i. slice_get kept.new.keys i ≡ Some node) }
    ensures grown { IsGrown node kept.old.keys kept.new.keys }
    ensures within { IfOk result (λ i. i ≤ length kept.old.keys) }
{
    let (at, _) = kept.insert_full(node)?;
    Ok(at)
}
