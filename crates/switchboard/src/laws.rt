//! Laws on the calls of a board.
ghost use Rattle.std.specs.Prelude.{◌≡◌, ◌≢◌, ℕ, true, IsSome, Result};
ghost use Rattle.ticket_lock.specs.declared.lane.Spent.{Spent};
ghost use Rattle.post_ledger.specs.Orders.{IsClosed, HasJob};
ghost use Rattle.switchboard.specs.declared.calls.Taken.{Taken};
ghost use Rattle.switchboard.specs.declared.calls.PostFault.{PostFault};
ghost use Rattle.switchboard.specs.declared.calls.Abort.{Abort};
ghost use Rattle.switchboard.specs.Sights.{Sight, Account, IsSound};
ghost use Rattle.switchboard.specs.Promises.{Took, TookOldest, WasPosted, WasRefused, PostReturns};
ghost use Rattle.switchboard.specs.Promises.{WasDone};
ghost use Rattle.switchboard.specs.Promises.{KeepsJob, MadeAbort, Learned, WasSpent, SaysClosed};
ghost use Rattle.switchboard.specs.Promises.{SaysStopped, IsPostStopped};

use crate::mail::Mail;

/// A pass that knows the close gets `Closed` from each later take that does not return `Spent`, and knows it from
/// then on; a closed order stays as it is.
pub fn the_close_stays<M: Mail<W>, W>()
    ensures answers { (s t : Sight M W) (r : Result (Taken M) Spent) → s.knows ≡ true
        → Took M.fits r s t → SaysClosed r }
    ensures knows { (s t : Sight M W) (r : Result (Taken M) Spent) → s.knows ≡ true
        → Took M.fits r s t
        → t.knows ≡ true }
    ensures same { (s t : Sight M W) (r : Result (Taken M) Spent) → IsSound M.fits s.seen
        → IsClosed s.seen.order
        → Took M.fits r s t → t.seen.order ≡ s.seen.order }
{}

/// A pass that knows the close, or has seen a closed order, posts nothing.
pub fn nothing_is_posted_after_the_close<M: Mail<W>, W>()
    ensures known { (s t : Sight M W) (job to : ℕ) (m : M) → s.knows ≡ true
        → WasPosted M.fits job to m s t → ⊥ }
    ensures closed { (s t : Sight M W) (job to : ℕ) (m : M) → IsSound M.fits s.seen
        → IsClosed s.seen.order
        → WasPosted M.fits job to m s t → ⊥ }
{}

/// A pass that knows of an abort finds it in each later take, which returns `Aborted`, `Closed` or `Spent`, and in
/// each later post, which is refused as aborted or as spent.
pub fn an_abort_stays<M: Mail<W>, W>()
    ensures takes { (s t : Sight M W) (r : Result (Taken M) Spent) → IsSome s.seen.aborted
        → Took M.fits r s t
        → SaysStopped r }
    ensures posts { (s t : Sight M W) (job to : ℕ) (m : M) → IsSome s.seen.aborted
        → WasPosted M.fits job to m s t → ⊥ }
    ensures refusals { (s t : Sight M W) (m : M) (f : PostFault M) → IsSome s.seen.aborted
        → WasRefused M.fits m f s t
        → IsPostStopped f }
{}

/// No pass with a job has seen a closed order.
pub fn nobody_with_a_job_knows_the_close<M: Mail<W>, W>()
    ensures { (s : Sight M W) (job : ℕ) → IsSound M.fits s.seen → IsClosed s.seen.order
        → HasJob s.number job s.seen.order → ⊥ }
{}

/// A pass that took a message has its job, which is not one that it had before.
pub fn a_message_comes_with_a_job<M: Mail<W>, W>()
    ensures has { (s t : Sight M W) (job : ℕ) (m : M) → TookOldest M.fits job m s t
        → HasJob t.number job t.seen.order }
    ensures other { (s t : Sight M W) (job old : ℕ) (m : M) → TookOldest M.fits job m s t
        → HasJob s.number old s.seen.order → old ≢ job }
{}

/// A pass keeps its jobs at each call, except for the one that it completes.
pub fn a_job_lasts_until_it_is_done<M: Mail<W>, W>()
    ensures takes { (old new : Sight M W) (r : Result (Taken M) Spent) (j : ℕ)
        → Took M.fits r old new → KeepsJob j old new }
    ensures posts { (old new : Sight M W) (job to : ℕ) (m : M) (r : Result (Unit {0}) (PostFault M))
        (j : ℕ) → PostReturns M.fits job to m r old new → KeepsJob j old new }
    ensures dones { (old new : Sight M W) (job j : ℕ) → WasDone M.fits job old new → j ≢ job
        → KeepsJob j old new }
    ensures aborts { (old new : Sight M W) (a : Abort) (j : ℕ) → MadeAbort M.fits a old new
        → KeepsJob j old new }
    ensures tales { (old new : Sight M W) (told : Account M) (j : ℕ) → Learned M.fits told old new
        → KeepsJob j old new }
{}
