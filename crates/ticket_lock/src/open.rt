//! A new lock, with its lanes.
ghost use Rattle.std.specs.Prelude.{◌≡◌, ◌^◌, ◌<◌, ◌≤◌, [], ◌∷◌, IfOk, IfErr, vec_len};
ghost use Rattle.std.specs.Prelude.{vec_capacity};
ghost use Rattle.ticket_lock.specs.Lone.{new_view, lanes_from};
ghost use Rattle.ticket_lock.specs.Lanes.{IsLockTable, fresh_lanes};

use crate::alone::{Alone, Deals, LoneSeat, LoneTable};
use crate::lane::Lane;
use crate::law::LaneLaw;
use crate::lock::TicketLock;
use crate::view::{Opening, View};
use atomic_table::{Refused, Shared, Table};
use std::alloc::{AllocFailed, Allocator};
use std::snapshot::Snapshot;

/// How many tickets a lane may draw, if no other budget is given.
pub const MOST_TICKETS: u64 = 1 << 56;

// One slot, with the value.
fn shelve<T, A: Allocator>(alloc: A, value: T) -> Result<Vec<Option<T>, A>, T>
    ensures ok { IfOk result (λ v. v.items ≡ Some value ∷ []) }
    ensures err { IfErr result (λ x. x ≡ value) }
{
    let mut slots = Vec::new(alloc);
    if let Err(failed) = slots.push(Some(value)) {
        let AllocFailed { value } = failed;
        slots.destroy_empty();
        let Some(value) = value else { unreachable!() };
        return Err(value);
    }
    Ok(slots)
}

// The value of the one slot.
fn unshelve<T, A: Allocator>(mut slots: Vec<Option<T>, A>) -> T
    requires { (x : T) × (slots.items ≡ Some x ∷ []) }
    ensures { slots.items ≡ Some result ∷ [] }
{
    let last = slots.pop();
    slots.destroy_empty();
    let Some(last) = last else { unreachable!() };
    let Some(value) = last else { unreachable!() };
    value
}

fn lay<T: LaneLaw, A: Allocator + Clone>(
    alloc: A,
    value: T,
    lanes: u8,
) -> Result<(LoneTable<T, A>, LoneSeat<T>), T>
    requires { (0 < lanes) × (lanes ≤ 64) }
    ensures ok { IfOk result
        (λ r. (r.0.shared.key.value.value ≡ value) × (r.0.shared.key.lanes ≡ lanes)
        × IsLockTable r.0.shared.table_id × (r.1.table_id ≡ r.0.shared.table_id)
        × (r.1.me ≡ (new_view (value ∷ []) (lanes_from 0 lanes value), []))) }
    ensures err { IfErr result (λ x. x ≡ value) }
{
    let Ok(heap) = alloc.clone() else {
        return Err(value);
    };
    let about = Opening {
        value: Snapshot::of(&value),
        lanes: u64::from(lanes),
    };
    let slots = shelve(heap, value)?;
    match Table::new(alloc, &[0, 0], slots, &about) {
        Ok(made) => Ok(made),
        Err(refused) => {
            let Refused { slots } = refused;
            Err(unshelve(slots))
        }
    }
}

// Gives each lane a seat of its own.
fn deal<T: LaneLaw, A: Allocator>(
    shared: &Shared<Option<T>, View<T>, Opening<T>, Alone>,
    mut seat: LoneSeat<T>,
    dealt: &mut Vec<Lane<T>, A>,
    lanes: u8,
    budget: u64,
)
    requires table { (seat.table_id ≡ shared.now.table_id) × IsLockTable shared.now.table_id
        × (budget ≤ 2 ^ 56) }
    requires seat { let x = shared.now.key.value.value in
        seat.me ≡ (new_view (x ∷ []) (lanes_from 0 lanes x), []) }
    requires room { (dealt.old.items ≡ []) × (lanes ≤ vec_capacity dealt.old) }
    ensures { dealt.new.items
        ≡ fresh_lanes shared.now.table_id budget shared.now.key.value.value 0 lanes }
{
    for number in 0..lanes {
        let own = shared.split_seat::<Deals>(&mut seat);
        dealt.push_reserved(Lane {
            seat: own,
            number: u64::from(number),
            left: budget,
        });
    }
}

impl<T: LaneLaw, A: Allocator> TicketLock<T, A> {
    /// A lock that keeps this value, with 1 to 64 lanes, each of which may draw 2^56 tickets. The value comes back
    /// if there is no memory.
    pub fn new(alloc: A, value: T, lanes: u8) -> Result<(TicketLock<T, A>, Vec<Lane<T>, A>), T>
    where
        A: Clone,
        requires { (0 < lanes) × (lanes ≤ 64) }
        ensures ok { IfOk result (λ r. (r.0.opening ≡ value) × (r.0.lanes ≡ lanes)
            × (r.1.items ≡ fresh_lanes r.0.id (2 ^ 56) value 0 lanes)) }
        ensures err { IfErr result (λ x. x ≡ value) }
    {
        TicketLock::with_budget(alloc, value, lanes, MOST_TICKETS)
    }

    /// The same, if each lane may draw `budget` tickets, from 2 to 2^56.
    pub fn with_budget(
        alloc: A,
        value: T,
        lanes: u8,
        budget: u64,
    ) -> Result<(TicketLock<T, A>, Vec<Lane<T>, A>), T>
    where
        A: Clone,
        requires lanes { (0 < lanes) × (lanes ≤ 64) }
        requires budget { (2 ≤ budget) × (budget ≤ 2 ^ 56) }
        ensures ok { IfOk result (λ r. (r.0.opening ≡ value) × (r.0.lanes ≡ lanes)
            × (r.1.items ≡ fresh_lanes r.0.id budget value 0 lanes)) }
        ensures err { IfErr result (λ x. x ≡ value) }
    {
        let Ok(heap) = alloc.clone() else {
            return Err(value);
        };
        let Ok(mut dealt) = Vec::with_capacity(heap, usize::from(lanes)) else {
            return Err(value);
        };
        let (board, seat) = lay(alloc, value, lanes)?;
        deal(&board.shared, seat, &mut dealt, lanes, budget);
        Ok((TicketLock { board }, dealt))
    }
}
