//! The calls of a lock at a place of a table, under any rule that allows it there.
ghost use Rattle.std.specs.Prelude.{◌≡◌, ℕ, ◌*◌, ◌^◌, ◌<◌, [], ◌∷◌, length, Some, None, IsSome};
ghost use Rattle.std.specs.Borrow.{Lends, sem};
ghost use Rattle.std.specs.contracts.option.Option.{the_row as option_row};
ghost use Rattle.std.specs.Option.Follows.{option_follows_value};
ghost use Rattle.atomic_table.specs.Table.{rest};
ghost use Rattle.atomic_table.specs.Lent.{seat_with};
ghost use Rattle.atomic_table.specs.contracts.shared.Seat.{the_row as seat_row};
ghost use Rattle.ticket_lock.specs.Count.{times};
ghost use Rattle.ticket_lock.specs.History.{EndsIn};
ghost use Rattle.ticket_lock.specs.Turns.{draws, waits, enters, passes};
ghost use Rattle.ticket_lock.specs.Calls.{IsSameSeat, IsRoom, StandsAt, IsFree, Drew, DrewIf};
ghost use Rattle.ticket_lock.specs.Calls.{FoundTurn, LookedAtTurn};
ghost use Rattle.ticket_lock.specs.Calls.{WentInside, Came, MayPass, Passed, Left};

use crate::plays::{Draws, DrawsIfNext, Looks, Passes};
use crate::rule::{At, LockRule};
use crate::waiting::sleep;
use atomic_table::{Seat, Shared};
use crossbeam_utils::Backoff;
use std::marker::Brand;
use std::sync::Wait;
use std::{hint, thread};

// How often a seat pauses while another is inside, and how often it yields and then sleeps after that, before it
// draws a ticket that it waits with. Tickets are served in turn, so one whose thread has no processor holds up all
// behind it; a seat without a ticket holds up nobody.
const PAUSES: u32 = 64;

const YIELDS: u32 = 16;

const SLEEPS: u32 = 8;

// A seat that finds the lock busy draws a ticket after some ten milliseconds at most.
const _: () = prove!(PAUSES + YIELDS + SLEEPS <= 88);

// How often a ticket is looked at before its thread yields, since the one that it waits for may have no processor.
const LOOKS: u32 = 16;

// The pause between two looks, which does not grow with them: a ticket that oversleeps its turn holds up all behind
// it, which would oversleep all the more.
fn pause() {
    let backoff = Backoff::new();
    backoff.spin();
    backoff.spin();
    backoff.spin();
}

fn draw_step<J: At, T, V, K, P: LockRule<T, V, K>>(
    shared: &Shared<Option<T>, V, K, P>,
    seat: &mut Seat<Option<T>, V>,
    word: usize,
    slot: usize,
) -> u64
    requires table { (seat.old.table_id ≡ shared.now.table_id)
        × IsRoom word J.slot shared.now.table_id
        × P.is_place shared.now.key word J.slot × (J.slot ≡ slot) }
    requires room { length (P.see J.slot seat.old.me.0).drawn
        < (P.see J.slot seat.old.me.0).parts * 2 ^ 56 }
    requires asks { P.asks J.slot draws seat.old.me.0 }
    ensures { IsSameSeat seat.old seat.new
        × Drew (P.see J.slot) (P.tells J.slot) seat.old.me result seat.new.me }
{
    shared.fetch_add::<Draws<J, K, P>>(seat, word + 1, 1)
}

/// Draws the next ticket of the lock at this place: one fetch_add. The seat must have some of its share of the right to
/// draw left.
pub fn draw_at<T, V, K, P: LockRule<T, V, K>>(
    shared: &Shared<Option<T>, V, K, P>,
    seat: &mut Seat<Option<T>, V>,
    word: usize,
    slot: usize,
) -> u64
    requires table { StandsAt P.is_place seat.old.table_id shared.now.table_id shared.now.key word
        slot }
    requires room { length (P.see slot seat.old.me.0).drawn
        < (P.see slot seat.old.me.0).parts * 2 ^ 56 }
    requires asks { P.asks slot draws seat.old.me.0 }
    ensures { IsSameSeat seat.old seat.new
        × Drew (P.see slot) (P.tells slot) seat.old.me result seat.new.me }
{
    draw_step::<Brand, T, V, K, P>(shared, seat, word, slot)
}

fn turn_step<J: At, T, V, K, P: LockRule<T, V, K>>(
    shared: &Shared<Option<T>, V, K, P>,
    seat: &mut Seat<Option<T>, V>,
    word: usize,
    slot: usize,
    ticket: u64,
) -> bool
    requires table { (seat.old.table_id ≡ shared.now.table_id)
        × IsRoom word J.slot shared.now.table_id
        × P.is_place shared.now.key word J.slot × (J.slot ≡ slot) × (J.ticket ≡ ticket) }
    requires held { 0 < times J.ticket (P.see J.slot seat.old.me.0).tickets }
    requires waits { P.asks J.slot waits seat.old.me.0 }
    requires enters { (x : T) → P.asks J.slot (enters x) seat.old.me.0 }
    ensures { IsSameSeat seat.old seat.new
        × FoundTurn (P.see J.slot)
        (P.tells J.slot) J.slot J.ticket seat.old.me result seat.new.me }
{
    shared.load::<Looks<J, K, P>>(seat, word) == ticket
}

/// Whether it is this ticket's turn: one load. If it is, the seat is inside, and the value lies in the slot still.
fn is_turn<T, V, K, P: LockRule<T, V, K>>(
    shared: &Shared<Option<T>, V, K, P>,
    seat: &mut Seat<Option<T>, V>,
    word: usize,
    slot: usize,
    ticket: u64,
) -> bool
    requires table { StandsAt P.is_place seat.old.table_id shared.now.table_id shared.now.key word
        slot }
    requires held { 0 < times ticket (P.see slot seat.old.me.0).tickets }
    requires waits { P.asks slot waits seat.old.me.0 }
    requires enters { (x : T) → P.asks slot (enters x) seat.old.me.0 }
    ensures { IsSameSeat seat.old seat.new
        × FoundTurn (P.see slot) (P.tells slot) slot ticket seat.old.me result seat.new.me }
{
    turn_step::<Brand, T, V, K, P>(shared, seat, word, slot, ticket)
}

/// Looks whether it is this ticket's turn: one load, and if it is, one exchange that takes the value out. If it is
/// not, nothing changes, and fewer values were left than the ticket says. The ticket must be one of the seat's.
pub fn look_at<T, V, K, P: LockRule<T, V, K>>(
    shared: &Shared<Option<T>, V, K, P>,
    seat: &mut Seat<Option<T>, V>,
    word: usize,
    slot: usize,
    ticket: u64,
) -> Option<T>
    requires table { StandsAt P.is_place seat.old.table_id shared.now.table_id shared.now.key word
        slot }
    requires held { 0 < times ticket (P.see slot seat.old.me.0).tickets }
    requires waits { P.asks slot waits seat.old.me.0 }
    requires enters { (x : T) → P.asks slot (enters x) seat.old.me.0 }
    ensures { IsSameSeat seat.old seat.new
        × LookedAtTurn (P.see slot) (P.tells slot) slot ticket seat.old.me result seat.new.me }
{
    if !is_turn(shared, seat, word, slot, ticket) {
        return None;
    }
    shared.exchange(seat, slot, None)
}

fn draw_if_next_step<J: At, T, V, K, P: LockRule<T, V, K>>(
    shared: &Shared<Option<T>, V, K, P>,
    seat: &mut Seat<Option<T>, V>,
    word: usize,
    slot: usize,
    next: u64,
) -> bool
    requires table { (seat.old.table_id ≡ shared.now.table_id)
        × IsRoom word J.slot shared.now.table_id
        × P.is_place shared.now.key word J.slot × (J.slot ≡ slot) × (J.ticket ≡ next) }
    requires room { length (P.see J.slot seat.old.me.0).drawn
        < (P.see J.slot seat.old.me.0).parts * 2 ^ 56 }
    requires asks { P.asks J.slot draws seat.old.me.0 × P.asks J.slot waits seat.old.me.0 }
    ensures { IsSameSeat seat.old seat.new
        × DrewIf (P.see J.slot) (P.tells J.slot) seat.old.me next result seat.new.me }
{
    let after = next.wrapping_add(1);
    shared.compare_exchange::<DrawsIfNext<J, K, P>>(seat, word + 1, next, after) == next
}

/// Draws the next ticket of the lock at this place if it has this number: one compare_exchange. Else nothing changes.
fn draw_if_next<T, V, K, P: LockRule<T, V, K>>(
    shared: &Shared<Option<T>, V, K, P>,
    seat: &mut Seat<Option<T>, V>,
    word: usize,
    slot: usize,
    next: u64,
) -> bool
    requires table { StandsAt P.is_place seat.old.table_id shared.now.table_id shared.now.key word
        slot }
    requires room { length (P.see slot seat.old.me.0).drawn
        < (P.see slot seat.old.me.0).parts * 2 ^ 56 }
    requires asks { P.asks slot draws seat.old.me.0 × P.asks slot waits seat.old.me.0 }
    ensures { IsSameSeat seat.old seat.new
        × DrewIf (P.see slot) (P.tells slot) seat.old.me next result seat.new.me }
{
    draw_if_next_step::<Brand, T, V, K, P>(shared, seat, word, slot, next)
}

fn wait_a_moment<R: Wait>(rt: &R, tries: u32) {
    if tries < PAUSES {
        hint::spin_loop();
    } else if tries < PAUSES + YIELDS {
        thread::yield_now();
    } else {
        sleep(rt, tries - (PAUSES + YIELDS));
    }
}

/// Draws the next ticket of the lock at this place as soon as it is served at once, and after some tries in any case.
fn draw_when_free<R: Wait, T, V, K, P: LockRule<T, V, K>>(
    rt: &R,
    shared: &Shared<Option<T>, V, K, P>,
    seat: &mut Seat<Option<T>, V>,
    word: usize,
    slot: usize,
) -> u64
    requires table { StandsAt P.is_place seat.old.table_id shared.now.table_id shared.now.key word
        slot }
    requires room { length (P.see slot seat.old.me.0).drawn
        < (P.see slot seat.old.me.0).parts * 2 ^ 56 }
    requires free { IsFree (P.asks slot) (P.tells slot) }
    ensures { IsSameSeat seat.old seat.new
        × Drew (P.see slot) (P.tells slot) seat.old.me result seat.new.me }
{
    for tries in 0..PAUSES + YIELDS + SLEEPS {
        let next = shared.peek(word + 1);
        if shared.peek(word) == next && draw_if_next(shared, seat, word, slot, next) {
            return next;
        }
        wait_a_moment(rt, tries);
    }
    draw_at(shared, seat, word, slot)
}

/// Looks whether it is this ticket's turn until it is, with a pause between two looks, and after some looks yields
/// between two. The value lies in the slot then.
fn wait_with<R: Wait, T, V, K, P: LockRule<T, V, K>>(
    rt: &R,
    shared: &Shared<Option<T>, V, K, P>,
    seat: &mut Seat<Option<T>, V>,
    word: usize,
    slot: usize,
    ticket: u64,
)
    requires table { StandsAt P.is_place seat.old.table_id shared.now.table_id shared.now.key word
        slot }
    requires held { 0 < times ticket (P.see slot seat.old.me.0).tickets }
    requires free { IsFree (P.asks slot) (P.tells slot) }
    ensures { IsSameSeat seat.old seat.new
        × (value : T) × WentInside (P.see slot)
        (P.tells slot) slot ticket value (Some value) seat.old.me seat.new.me }
{
    let mut looks = 0u32;
    for _ in rt.forever() {
        if is_turn(shared, seat, word, slot, ticket) {
            return;
        }
        if looks < LOOKS {
            looks += 1;
            pause();
        } else {
            thread::yield_now();
        }
    }
    unreachable!()
}

/// Draws the next ticket of the lock at this place, and looks until it is served, with a pause between two looks, and
/// after some looks yields between two: the ticket's number and the value. The seat must have some of its share of the
/// right to draw left, and the rule must let each seat draw, look and enter.
pub fn enter_at<R: Wait, T, V, K, P: LockRule<T, V, K>>(
    rt: &R,
    shared: &Shared<Option<T>, V, K, P>,
    seat: &mut Seat<Option<T>, V>,
    word: usize,
    slot: usize,
) -> (u64, T)
    requires table { StandsAt P.is_place seat.old.table_id shared.now.table_id shared.now.key word
        slot }
    requires room { length (P.see slot seat.old.me.0).drawn
        < (P.see slot seat.old.me.0).parts * 2 ^ 56 }
    requires free { IsFree (P.asks slot) (P.tells slot) }
    ensures { IsSameSeat seat.old seat.new
        × Came (P.see slot) (P.tells slot) slot seat.old.me result.0 result.1 None seat.new.me }
{
    let ticket = draw_at(shared, seat, word, slot);
    wait_with(rt, shared, seat, word, slot, ticket);
    let found = shared.exchange(seat, slot, None);
    let Some(value) = found else { unreachable!() };
    (ticket, value)
}

/// Like `enter_at`, but the value stays in its slot, and a ticket is drawn as soon as it is served at once, and only
/// after some tries one to wait with: the ticket's number. So seats do not enter in the order in which they come, but
/// seldom does one wait for another whose thread has no processor.
pub fn come_when_free_at<R: Wait, T, V, K, P: LockRule<T, V, K>>(
    rt: &R,
    shared: &Shared<Option<T>, V, K, P>,
    seat: &mut Seat<Option<T>, V>,
    word: usize,
    slot: usize,
) -> u64
    requires table { StandsAt P.is_place seat.old.table_id shared.now.table_id shared.now.key word
        slot }
    requires room { length (P.see slot seat.old.me.0).drawn
        < (P.see slot seat.old.me.0).parts * 2 ^ 56 }
    requires free { IsFree (P.asks slot) (P.tells slot) }
    ensures { IsSameSeat seat.old seat.new
        × (value : T) × Came (P.see slot)
        (P.tells slot) slot seat.old.me result value (Some value) seat.new.me }
{
    let ticket = draw_when_free(rt, shared, seat, word, slot);
    wait_with(rt, shared, seat, word, slot, ticket);
    ticket
}

/// The value of an option that has one.
fn value_in<T>(home: &mut Option<T>) -> &mut T
    requires { IsSome home.old }
    ensures* writes_back { sem 𝓛 (option_follows_value T.row home.entry result) }
    ensures value { home.old ≡ Some result.now }
{
    match home {
        Some(value) => value,
        None => unreachable!(),
    }
}

/// The value that lies in the slot that the seat took last, to be read or changed in place.
// The seat comes first, since Rattle proves by itself only what the first argument lends.
pub fn value_at<'a, T, V, K, P: LockRule<T, V, K>>(
    seat: &'a mut Seat<Option<T>, V>,
    shared: &'a Shared<Option<T>, V, K, P>,
    slot: usize,
) -> &'a mut T
    requires table { seat.old.table_id ≡ shared.now.table_id }
    requires lies { (value : T) × (seat.old.me.1 ≡ (slot, Some value) ∷ rest seat.old.me.1) }
    ensures* writes_back { sem 𝓛 (Lends (seat_row (option_row T.row) V.row) T.row seat.entry result
        (λ value. seat_with seat.old slot (Some value))) }
    ensures value { seat.old.me.1 ≡ (slot, Some result.now) ∷ rest seat.old.me.1 }
{
    value_in(seat.slot_mut(shared, slot))
}

fn serve_step<J: At, T, V, K, P: LockRule<T, V, K>>(
    shared: &Shared<Option<T>, V, K, P>,
    seat: &mut Seat<Option<T>, V>,
    word: usize,
    slot: usize,
)
    requires table { (seat.old.table_id ≡ shared.now.table_id)
        × IsRoom word J.slot shared.now.table_id
        × P.is_place shared.now.key word J.slot × (J.slot ≡ slot) }
    requires inside { MayPass (P.see J.slot) (P.asks J.slot) J.slot seat.old.me }
    ensures { IsSameSeat seat.old seat.new
        × Passed (P.see J.slot) (P.tells J.slot) J.slot seat.old.me seat.new.me }
{
    shared.fetch_add::<Passes<J, K, P>>(seat, word, 1);
}

/// Serves the next ticket: one fetch_add. The value that lies in the slot is the last one of the history then. The seat
/// must be inside.
pub fn serve_next_at<T, V, K, P: LockRule<T, V, K>>(
    shared: &Shared<Option<T>, V, K, P>,
    seat: &mut Seat<Option<T>, V>,
    word: usize,
    slot: usize,
)
    requires table { StandsAt P.is_place seat.old.table_id shared.now.table_id shared.now.key word
        slot }
    requires inside { MayPass (P.see slot) (P.asks slot) slot seat.old.me }
    ensures { IsSameSeat seat.old seat.new
        × Passed (P.see slot) (P.tells slot) slot seat.old.me seat.new.me }
{
    serve_step::<Brand, T, V, K, P>(shared, seat, word, slot);
}

/// Puts a value back as the last one of the history: one exchange that brings it home, and then one fetch_add that
/// serves the next ticket. The seat must be inside.
pub fn leave_at<T, V, K, P: LockRule<T, V, K>>(
    shared: &Shared<Option<T>, V, K, P>,
    seat: &mut Seat<Option<T>, V>,
    word: usize,
    slot: usize,
    value: T,
)
    requires table { StandsAt P.is_place seat.old.table_id shared.now.table_id shared.now.key word
        slot }
    requires out { seat.old.me.1 ≡ (slot, None) ∷ rest seat.old.me.1 }
    requires inside { (t : ℕ) × ((P.see slot seat.old.me.0).inside ≡ t ∷ []) }
    requires asks { (x : T) → EndsIn (P.see slot seat.old.me.0).seen x
        → P.asks slot (passes x value) seat.old.me.0 }
    ensures { IsSameSeat seat.old seat.new
        × Left (P.see slot) (P.tells slot) value seat.old.me seat.new.me }
{
    let found = shared.exchange(seat, slot, Some(value));
    let None = found else { unreachable!() };
    serve_next_at(shared, seat, word, slot);
}
