//! Searches over a list: one item after the other is searched, and the least offset of all is the answer.

ghost use Rattle.std.specs.Prelude.{IfOk, Ok};
ghost use Rattle.std.specs.Fn.{FnReturnsAt};
ghost use Rattle.scopes.specs.Find.{Earliest};

use crate::names::earlier;
use std::alloc::AllocError;

/// The offset that a search found, if any; an error is a refused allocation.
pub(crate) type Answer = Result<Option<u32>, AllocError>;

/// The least of the offsets that `search` returns for the items; nothing if it returns none.
pub(crate) fn earliest<T, F: Fn(&T) -> Option<u32>>(items: &[T], search: F) -> Option<u32>
    requires { F.IsAlwaysCallable search }
    ensures { Earliest (FnReturnsAt F.Fn search) items.now result }
{
    let mut found = None;
    for item in items {
        found = earlier(found, search(item));
    }
    found
}

/// The same, if a search may fail: its error is returned.
pub(crate) fn try_earliest<T, E: Drop, F: Fn(&T) -> Result<Option<u32>, E>>(
    items: &[T],
    search: F,
) -> Result<Option<u32>, E>
    requires { F.IsAlwaysCallable search }
    ensures { IfOk result (Earliest (λ x r. FnReturnsAt F.Fn search x (Ok r)) items.now) }
{
    let mut found = None;
    for item in items {
        found = earlier(found, search(item)?);
    }
    Ok(found)
}
