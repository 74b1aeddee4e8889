//! Laws on orders of a board.
ghost use Rattle.std.specs.Prelude.{◌≡◌, ◌↔◌, ◌<◌, ℕ, List, [], ◌∷◌, ◌++◌, length, take, nat_eq};
ghost use Rattle.std.specs.Prelude.{Contains};
ghost use Rattle.std.specs.List.{IsDistinct};
ghost use Rattle.post_ledger.specs.declared.event.Event.{Event};
ghost use Rattle.post_ledger.specs.declared.event.Event.TheVariants.{Post, Take, Done};
ghost use Rattle.post_ledger.specs.declared.entry.Entry.{Entry};
ghost use Rattle.post_ledger.specs.declared.entry.Entry.TheVariants.{Posted, Taken, Completed};
ghost use Rattle.post_ledger.specs.History.{posts, takes, dones, IsLegal};
ghost use Rattle.post_ledger.specs.Sides.{sent, taken};
ghost use Rattle.post_ledger.specs.Orders.{IsLawful, IsCompleted, IsClosed, HasJob, part, own};
ghost use Rattle.post_ledger.specs.Orders.{posted, completed};
ghost use Rattle.post_ledger.specs.Row.{row, beginning};

/// Messages are taken in the order in which they were posted: the Takes of a legal history are the first of its Posts.
pub fn takes_are_the_first_posts<M>()
    ensures { (h : List (Event M)) → IsLegal h → takes h ≡ take (length (takes h)) (posts h) }
{}

/// In a legal history with as many Posts as Takes as Dones, what was taken is what was posted, in order, and of each
/// sender what was taken is what it sent; each Take is completed, and none twice.
pub fn what_was_sent_was_taken<M>()
    ensures all { (h : List (Event M)) → IsLegal h → IsCompleted h → takes h ≡ posts h }
    ensures each { (h : List (Event M)) (s : ℕ) → IsLegal h → IsCompleted h → taken s h ≡ sent s h }
    ensures done { (h : List (Event M)) (t : ℕ) → IsLegal h → IsCompleted h → t < length (takes h)
        → Contains (dones h) t }
    ensures once { (h : List (Event M)) → IsLegal h → IsDistinct nat_eq (dones h) }
{}

/// The same for a board: in each mailbox of a lawful order that is closed, what was taken of each sender is what
/// it sent.
pub fn what_was_sent_on_a_board_was_taken<M>()
    ensures { (boxes : ℕ) (order : List (Entry M)) (q s : ℕ) → IsLawful boxes order → IsClosed order
        → taken s (part q order) ≡ sent s (part q order) }
{}

/// Nobody has a job at the close.
pub fn nobody_has_a_job_at_the_close<M>()
    ensures { (boxes : ℕ) (order : List (Entry M)) (p t : ℕ) → IsLawful boxes order
        → IsClosed order → HasJob p t order
        → ⊥ }
{}

/// The close by counting: a lawful order is closed if and only if it has as many Dones as Posts.
pub fn closed_by_counting<M>()
    ensures { (boxes : ℕ) (order : List (Entry M)) → IsLawful boxes order
        → (posted order ≡ completed order)
        ↔ IsClosed order }
{}

/// Nothing follows the close: a lawful order that begins with a closed one is that one.
pub fn nothing_follows_the_close<M>()
    ensures { (boxes : ℕ) (order rest : List (Entry M)) → IsLawful boxes order → IsClosed order
        → IsLawful boxes (order ++ rest) → rest ≡ [] }
{}

/// A run of two mailboxes: its order is lawful and closed, and has the two mailboxes' histories and the two passes'
/// own lists as its projections; if both of mailbox 1 are taken and none completed, the order is not closed.
pub fn a_run_of_two_mailboxes()
    ensures lawful { IsLawful 2 row × IsClosed row }
    ensures first { part 0 row ≡ Post 2 10 ∷ Take 2 10 ∷ Done 0 ∷ [] }
    ensures second { part 1 row
        ≡ Post 0 11 ∷ Post 0 12 ∷ Take 0 11 ∷ Take 0 12 ∷ Done 0 ∷ Done 1 ∷ [] }
    ensures own { own 0 row
        ≡ Taken 0 2 10 ∷ Posted 1 0 11 0 ∷ Posted 1 0 12 0 ∷ Completed 0 0 ∷ [] }
    ensures open { IsClosed beginning → ⊥ }
{}
