//! Short lists.

ghost use Rattle.std.specs.Prelude.{◌≡◌, [], ◌∷◌, ◌++◌, OnOk, OnErr};

use std::alloc::{AllocError, Allocator};

/// Appends a value. A list that is full grows by half and two, and not to twice its length: there are many short ones,
/// which would stay half empty, but a list of a few values is not to grow for each. If memory is refused, the list has
/// the same values.
#[inline(always)]
pub(crate) fn append<T: Copy, A: Allocator>(
    list: &mut Vec<T, A>,
    value: T,
) -> Result<(), AllocError>
    ensures ok { OnOk result (list.new.items ≡ list.old.items ++ value ∷ []) }
    ensures err { OnErr result (list.new.items ≡ list.old.items) }
{
    if list.len() == list.capacity() {
        list.reserve_exact(list.len() / 2 + 2)?;
    }
    list.push_reserved(value);
    Ok(())
}
