//! The endings of a turn.

ghost use Rattle.std.specs.Prelude.{◌≡◌, ◌<◌, ◌++◌, ◌∷◌, [], IfOk, OnOk, Some, length, slice_get};
ghost use Rattle.naming.specs.Names.{AreListed, IsListed, endings_in};

use crate::part::Part;
use stack_sets::Ending;
use std::alloc::{AllocError, Allocator};

/// Adds an ending.
fn add<A: Allocator>(endings: &mut Vec<Ending, A>, ending: Ending) -> Result<(), AllocError>
    ensures { OnOk result (endings.new.items ≡ endings.old.items ++ ending ∷ []) }
{
    endings.push(ending)?;
    Ok(())
}

/// The number at an index.
fn name_of(names: &[usize], index: usize) -> usize
    requires { index < length names.now }
    ensures { slice_get names.now index ≡ Some result }
{
    names[index]
}

/// Adds the ending of a set with the number of its node, if it is an ending.
fn list_part<A: Allocator>(
    endings: &mut Vec<Ending, A>,
    node: usize,
    part: Part,
) -> Result<(), AllocError>
    ensures { OnOk result (IsListed node part endings.old.items endings.new.items) }
{
    if let Part::Ending(globals) = part {
        add(endings, Ending { globals, node })?;
    }
    Ok(())
}

/// The endings of a turn, each with the node of its stacks.
pub(crate) fn list_endings<A: Allocator>(
    alloc: A,
    names: &[usize],
    parts: &[Part],
) -> Result<Vec<Ending, A>, AllocError>
    requires { length names.now ≡ length parts.now }
    ensures listed { IfOk result (λ endings. AreListed names.now parts.now endings.items) }
    ensures count { IfOk result (λ endings. length endings.items ≡ endings_in parts.now) }
{
    let mut endings = Vec::new(alloc);
    for (index, part) in parts.iter().enumerate() {
        list_part(&mut endings, name_of(names, index), *part)?;
    }
    Ok(endings)
}
