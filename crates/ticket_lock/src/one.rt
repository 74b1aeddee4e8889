//! Laws of the lock's rule.
ghost use Rattle.std.specs.Prelude.{◌≡◌, ℕ, ◌≤◌, Option, length};
ghost use Rattle.atomic_table.specs.Table.{State};
ghost use Rattle.ticket_lock.specs.Count.{times, total};
ghost use Rattle.ticket_lock.specs.Core.{in_hand};
ghost use Rattle.ticket_lock.specs.Drawing.{HasDrawn};

use crate::rule::LockRule;

/// At most one guard: under each rule that allows a lock at a place, in each state that the table has between two
/// steps, one seat at most is inside there. A look in turn brings its seat inside, and a leave brings it out.
pub fn at_most_one_guard<T, V, K, P: LockRule<T, V, K>>()
    ensures { (key : K) (word slot : ℕ) (s : State (Option T) V) → P.is_place key word slot
        → P.holds key s
        → total (λ v. length (P.see slot v).inside) s.views ≤ 1 }
{}

/// No number twice: under each rule that allows a lock at a place, in each state that the table has between two
/// steps, each number is at most once in the hands of all seats, waiting or inside, and at most once among all that
/// they ever drew; and what a seat draws, none of them had drawn before.
pub fn no_number_twice<T, V, K, P: LockRule<T, V, K>>()
    ensures held { (key : K) (word slot : ℕ) (s : State (Option T) V) → P.is_place key word slot
        → P.holds key s
        → (number : ℕ) → total (λ v. in_hand number (P.see slot v)) s.views ≤ 1 }
    ensures drawn { (key : K) (word slot : ℕ) (s : State (Option T) V) → P.is_place key word slot
        → P.holds key s
        → (number : ℕ) → total (λ v. times number (P.see slot v).drawn) s.views ≤ 1 }
    ensures fresh { (key : K) (word slot : ℕ) (s t : State (Option T) V) → P.is_place key word slot
        → P.holds key t
        → (number seat : ℕ) → HasDrawn (P.see slot) seat number s t
        → total (λ v. times number (P.see slot v).drawn) s.views ≡ 0 }
{}
