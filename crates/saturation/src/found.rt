//! What a turn has found.

ghost use Rattle.std.specs.Prelude.{◌≡◌, ◌≤◌, ◌+◌, IfOk, OnErr, OnOk, length};
ghost use Rattle.language.specs.Lists.{Member};
ghost use Rattle.saturation.specs.Items.{Extends, Inserted, item_of};

use crate::item::Item;
use indexmap::IndexSet;
use stack_sets::NoTurn;
use std::alloc::{AllocError, Allocator};
use std::hash::{BuildHasherDefault, FoldHasher};

/// What a turn has found, in the order of finding, each once.
pub type Items<A> = IndexSet<Item, BuildHasherDefault<FoldHasher>, A>;

/// Adds an item. Returns whether it is new.
fn insert<A: Allocator>(items: &mut Items<A>, item: Item) -> Result<bool, AllocError>
    ensures added { OnOk result (Member item items.new.keys) }
    ensures ok { IfOk result (λ new. Inserted item new items.old.keys items.new.keys) }
    ensures err { OnErr result (items.new.keys ≡ items.old.keys) }
{
    Ok(items.insert(item)?)
}

/// Adds what a turn finds, if it is new. A new one takes one from the work that is left; if none is left, the answer is
/// `Limit`.
pub(crate) fn reach<A: Allocator>(
    items: &mut Items<A>,
    left: &mut u64,
    item: Item,
) -> Result<(), NoTurn>
    ensures added { OnOk result (Member item items.new.keys) }
    ensures grows { Extends (λ x. x ≡ item_of item) items.old.keys items.new.keys }
    ensures work { left.new + length items.new.keys ≤ left.old + length items.old.keys }
{
    if *left == 0 {
        return if items.contains(&item) {
            Ok(())
        } else {
            Err(NoTurn::Limit)
        };
    }
    if insert(items, item)? {
        *left -= 1;
    }
    Ok(())
}
