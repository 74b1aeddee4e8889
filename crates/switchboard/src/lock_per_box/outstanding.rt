//! The steps on the word of outstanding posts, and the plays of a board with a lock for each mailbox.
ghost use Rattle.std.specs.Prelude.{◌≡◌, ℕ, ◌<◌, ◌∷◌, [], false};
ghost use Rattle.ticket_lock.specs.Calls.{IsSameSeat};
ghost use Rattle.switchboard.specs.declared.calls.Abort.{Abort};
ghost use Rattle.switchboard.specs.declared.lock_per_box.knowing.Own.{Own};
ghost use Rattle.switchboard.specs.Knowing.{counted_down, hand_at, merged_seats};
ghost use Rattle.switchboard.specs.PerBox.{HasOwnJob, LookedAtWord, CountedUp, Raised, SeatTookIn};

use crate::calls::{Cause, Job};
use crate::lock_per_box::knowing::{Ground, Knowing};
use crate::lock_per_box::rule::Boxes;
use crate::mail::Mail;
use atomic_table::{Join, Play, Seat, Shared, Split};
use post_ledger::Mailbox;
use std::alloc::Allocator;
use std::marker::{Brand, PhantomData};

/// Bit 63 of word 0, which says that the board was aborted.
pub(crate) const ABORTED: u64 = 1 << 63;

pub(crate) type Boards<M, W, A> = Shared<
    Option<Mailbox<M, A>>,
    Knowing<M, W, Mailbox<M, A>>,
    Ground<M, W>,
    Boxes,
>;

pub(crate) type BoxSeat<M, W, A> = Seat<Option<Mailbox<M, A>>, Knowing<M, W, Mailbox<M, A>>>;

// Names the job or the abort that a step is about, which a `Play` cannot see.
pub(crate) trait About {
    ghost job: { ℕ };

    ghost abort: { Abort };
}

impl About for Brand {
    ghost use Rattle.switchboard.specs.declared.calls.Cause.TheVariants.{Memory};

    ghost job = { 0 };

    ghost abort = { record { by = 0; cause = Memory } };
}

pub(crate) struct CountsUp<J> {
    of: PhantomData<J>,
}

impl<J: About, W, M: Mail<W>, A: Allocator> Play<
    Option<Mailbox<M, A>>,
    Knowing<M, W, Mailbox<M, A>>,
> for CountsUp<J> {
    ghost then = { λ _ m n w. CountedUp M.fits J.job m n w };
}

pub(crate) struct CountsDown;

impl<S, M, W, T> Play<S, Knowing<M, W, T>> for CountsDown {
    ghost then = { λ _ m _ w. w ≡ (counted_down m.0, m.1) };
}

pub(crate) struct LooksAtWord;

impl<W, M: Mail<W>, A: Allocator> Play<Option<Mailbox<M, A>>, Knowing<M, W, Mailbox<M, A>>>
    for LooksAtWord {
    ghost then = { λ _ m n w. LookedAtWord M.fits m n w };
}

pub(crate) struct Raises<J> {
    of: PhantomData<J>,
}

impl<J: About, W, M: Mail<W>, A: Allocator> Play<
    Option<Mailbox<M, A>>,
    Knowing<M, W, Mailbox<M, A>>,
> for Raises<J> {
    ghost then = { λ _ m _ w. Raised M.fits J.abort m w };
}

fn count_step<J: About, W, M: Mail<W>, A: Allocator>(
    shared: &Boards<M, W, A>,
    seat: &mut BoxSeat<M, W, A>,
    job: &Job,
) -> u64
    requires table { (seat.old.table_id ≡ shared.now.table_id) × (0 < shared.now.table_id.words) }
    requires job { HasOwnJob seat.old.me.0 J.job }
    requires budget { 0 < seat.old.me.0.budget }
    ensures { IsSameSeat seat.old seat.new
        × CountedUp M.fits J.job seat.old.me result seat.new.me }
{
    let _ = job;
    shared.fetch_add::<CountsUp<J>>(seat, 0, 1)
}

/// Looks at the word, and counts up a Post that the seat's pass will make under this job: one fetch_add.
pub(crate) fn count_up<W, M: Mail<W>, A: Allocator>(
    shared: &Boards<M, W, A>,
    seat: &mut BoxSeat<M, W, A>,
    job: &Job,
) -> u64
    requires table { (seat.old.table_id ≡ shared.now.table_id) × (0 < shared.now.table_id.words) }
    requires job { HasOwnJob seat.old.me.0 job.now }
    requires budget { 0 < seat.old.me.0.budget }
    ensures { IsSameSeat seat.old seat.new
        × CountedUp M.fits job.now seat.old.me result seat.new.me }
{
    count_step::<Brand, W, M, A>(shared, seat, job)
}

/// Counts down a Post whose Done the seat's pass has recorded, or that it will not make: one fetch_sub.
pub(crate) fn count_down<W, M: Mail<W>, A: Allocator>(
    shared: &Boards<M, W, A>,
    seat: &mut BoxSeat<M, W, A>,
)
    requires table { (seat.old.table_id ≡ shared.now.table_id) × (0 < shared.now.table_id.words) }
    requires owes { 0 < seat.old.me.0.owes }
    ensures { IsSameSeat seat.old seat.new
        × (seat.new.me ≡ (counted_down seat.old.me.0, seat.old.me.1)) }
{
    shared.fetch_sub::<CountsDown>(seat, 0, 1);
}

/// Looks at the word: one load.
pub(crate) fn look<W, M: Mail<W>, A: Allocator>(
    shared: &Boards<M, W, A>,
    seat: &mut BoxSeat<M, W, A>,
) -> u64
    requires table { (seat.old.table_id ≡ shared.now.table_id) × (0 < shared.now.table_id.words) }
    ensures { IsSameSeat seat.old seat.new × LookedAtWord M.fits seat.old.me result seat.new.me }
{
    shared.load::<LooksAtWord>(seat, 0)
}

fn raise_step<J: About, W, M: Mail<W>, A: Allocator>(
    shared: &Boards<M, W, A>,
    seat: &mut BoxSeat<M, W, A>,
    by: u8,
    cause: Cause,
)
    requires table { (seat.old.table_id ≡ shared.now.table_id) × (0 < shared.now.table_id.words) }
    requires own { (o : Own M) × (seat.old.me.0.lanes ≡ o ∷ []) × (o.number ≡ J.abort.by)
        × (o.made ≡ false)
        × (J.abort.by < shared.now.key.boxes) }
    ensures { IsSameSeat seat.old seat.new × Raised M.fits J.abort seat.old.me seat.new.me }
{
    let _ = by;
    let _ = cause;
    shared.fetch_or::<Raises<J>>(seat, 0, ABORTED);
}

/// Raises bit 63 for the seat's pass, which has made no abort before: one fetch_or, whatever the other bits are.
pub(crate) fn raise<W, M: Mail<W>, A: Allocator>(
    shared: &Boards<M, W, A>,
    seat: &mut BoxSeat<M, W, A>,
    by: u8,
    cause: Cause,
)
    requires table { (seat.old.table_id ≡ shared.now.table_id) × (0 < shared.now.table_id.words) }
    requires own { (o : Own M) × (seat.old.me.0.lanes ≡ o ∷ []) × (o.number ≡ by) × (o.made ≡ false)
        × (by < shared.now.key.boxes) }
    ensures { IsSameSeat seat.old seat.new
        × Raised M.fits (record { by = by; cause = cause }) seat.old.me seat.new.me }
{
    raise_step::<Brand, W, M, A>(shared, seat, by, cause);
}

// The first seat gives its first pass away.
pub(crate) struct DealsPass;

impl<M, W, T> Split<Knowing<M, W, T>> for DealsPass {
    ghost use Rattle.switchboard.specs.Knowing.{without_first_pass, first_pass_alone};

    ghost left = { without_first_pass };

    ghost right = { first_pass_alone };
}

// A seat tells what it has seen.
pub(crate) struct TellsSeen;

impl<M, W, T> Split<Knowing<M, W, T>> for TellsSeen {
    ghost use Rattle.switchboard.specs.Knowing.{only_seen};

    ghost left = { λ v. v };

    ghost right = { λ v. only_seen v.seen };
}

// A seat takes in what another has, and is told what it has seen.
pub(crate) struct MergesSeats;

impl<M, W, T> Join<Knowing<M, W, T>> for MergesSeats {
    ghost use Rattle.switchboard.specs.Knowing.{unseen, only_seen, merged_seats};

    ghost both = { merged_seats };

    ghost spent = { only_seen unseen };
}

// A seat takes in what it was told.
pub(crate) struct TakesInSeen;

impl<W, M: Mail<W>, A: Allocator> Play<Option<Mailbox<M, A>>, Knowing<M, W, Mailbox<M, A>>>
    for TakesInSeen {
    ghost then = { λ _ m _ w. SeatTookIn M.fits m w };
}

/// Takes in another seat, if both are outside all locks, and then what it has seen: one load.
pub(crate) fn take_in<W, M: Mail<W>, A: Allocator>(
    shared: &Boards<M, W, A>,
    seat: &mut BoxSeat<M, W, A>,
    other: BoxSeat<M, W, A>,
)
    requires table { (seat.old.table_id ≡ shared.now.table_id)
        × (other.table_id ≡ shared.now.table_id)
        × (0 < shared.now.table_id.words) }
    requires none { other.me.1 ≡ [] }
    requires mine { (q : ℕ) → q < shared.now.key.boxes → (hand_at q seat.old.me.0).inside ≡ [] }
    requires theirs { (q : ℕ) → q < shared.now.key.boxes → (hand_at q other.me.0).inside ≡ [] }
    ensures { IsSameSeat seat.old seat.new
        × SeatTookIn M.fits (merged_seats seat.old.me.0 other.me.0, seat.old.me.1) seat.new.me }
{
    shared.join_seat::<MergesSeats>(seat, other);
    shared.load::<TakesInSeen>(seat, 0);
}
