//! What was made, appended to others.

ghost use Rattle.std.specs.Prelude.{◌≡◌, ◌++◌, ◌∷◌, [], Ok, IfOk};

use std::alloc::{AllocError, Allocator};

/// Appends what was made to others; if it was not, there was no memory.
// The caller holds no value of a large type when memory is refused.
pub(crate) fn put<T: Drop, A: Allocator>(
    made: Result<T, AllocError>,
    list: &mut Vec<T, A>,
) -> Result<(), AllocError>
    ensures { IfOk result
        (λ _. (x : T) × (made ≡ Ok x) × (list.new.items ≡ list.old.items ++ x ∷ [])) }
{
    push(made?, list)
}

/// Appends a value to others.
pub(crate) fn push<T: Drop, A: Allocator>(value: T, list: &mut Vec<T, A>) -> Result<(), AllocError>
    ensures { IfOk result (λ _. list.new.items ≡ list.old.items ++ value ∷ []) }
{
    list.push(value)?;
    Ok(())
}
