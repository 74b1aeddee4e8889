//! Long lists.

ghost use Rattle.std.specs.Prelude.{◌≡◌, ◌<◌, [], ◌∷◌, ◌++◌, OnOk, OnErr};
ghost use Rattle.std.specs.Prelude.{vec_len, vec_capacity};

use std::alloc::{AllocError, Allocator};

/// Makes room for one more value: a list that is full grows to twice its length.
#[inline(always)]
pub(crate) fn make_room<T: Copy, A: Allocator>(list: &mut Vec<T, A>) -> Result<(), AllocError>
    ensures same { list.new.items ≡ list.old.items }
    ensures room { OnOk result (vec_len list.new < vec_capacity list.new) }
{
    if list.len() == list.capacity() {
        list.reserve(1)?;
    }
    Ok(())
}

/// Appends a value, as `Vec::push` does: a list that is full grows to twice its length. If memory is refused, the list has the
/// same values.
// `push` calls a function that looks whether there is room; here that is inlined.
#[inline(always)]
pub(crate) fn append<T: Copy, A: Allocator>(
    list: &mut Vec<T, A>,
    value: T,
) -> Result<(), AllocError>
    ensures ok { OnOk result (list.new.items ≡ list.old.items ++ value ∷ []) }
    ensures err { OnErr result (list.new.items ≡ list.old.items) }
{
    make_room(list)?;
    list.push_reserved(value);
    Ok(())
}
