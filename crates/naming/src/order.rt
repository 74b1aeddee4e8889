//! The order of the heads of a node.

ghost use Rattle.std.specs.Prelude.{IsPermutation};

use stack_sets::Head;
use std::alloc::Allocator;

/// Puts heads into an order that depends on them alone, so that equal sets have equal lists: those with one frame stand
/// together, those over nodes with smaller numbers first.
pub(crate) fn put_in_order<A: Allocator>(heads: &mut Vec<Head, A>)
    ensures { IsPermutation heads.old.items heads.new.items }
{
    heads.sort_unstable_by_key(|head| {
        let frame = head.frame;
        (frame.procedure, frame.point, frame.places, head.below)
    });
}
