//! What a table's rule must say so that a lock may be at a place of the table.
ghost use Rattle.std.specs.Prelude.{ℕ};
ghost use Rattle.ticket_lock.specs.declared.hand.Hand.{Hand};
ghost use Rattle.ticket_lock.specs.Turns.{StepKind, Opens};

use atomic_table::TableRule;
use std::marker::Brand;

// Names the slot and the ticket that a step is about, which a `Play` cannot see.
pub(crate) trait At {
    ghost slot: { ℕ };

    ghost ticket: { ℕ };
}

impl At for Brand {
    ghost slot = { 0 };

    ghost ticket = { 0 };
}

/// A rule that holds the lock's rule at each of its places: a place is a word with the count of values left, the
/// word after it, with the next ticket, and a slot, with the value.
pub trait LockRule<T, V, K>: TableRule<Option<T>, V, K> {
    ghost is_place: { K → ℕ → ℕ → Type 0 };

    // What a view says of the lock with this slot.
    ghost see: { ℕ → V → Hand T };

    // What a step asks of its caller, beside what the lock asks.
    ghost asks: { ℕ → StepKind T → V → Type 0 };

    // What a step tells its caller, beside what the lock tells.
    ghost tells: { ℕ → StepKind T → V → V → Type 0 };

    ghost opens: { (key : K) (word slot : ℕ) → is_place key word slot
        → Opens (Self.holds key) (see slot) (asks slot) (tells slot) word slot };
}
