//! A new board with a lock for each mailbox.
ghost use Rattle.std.specs.Prelude.{◌≡◌, ℕ, ◌+◌, ◌*◌, ◌-◌, ◌^◌, ◌<◌, ◌≤◌, ◌∷◌, [], List, Some};
ghost use Rattle.std.specs.Prelude.{Option, IfOk, length, slice_get, get_or, vec_len, vec_capacity};
ghost use Rattle.post_ledger.specs.declared.event.Event.{Event};
ghost use Rattle.post_ledger.specs.declared.entry.Entry.TheVariants.{Posted};
ghost use Rattle.post_ledger.specs.Orders.{part};
ghost use Rattle.switchboard.specs.Sights.{opened, fresh_sights};
ghost use Rattle.switchboard.specs.Knowing.{first_view};
ghost use Rattle.switchboard.specs.PerBox.{IsBoardTable};

use crate::lock_per_box::board::{BoxTable, LockPerBox};
use crate::lock_per_box::knowing::Ground;
use crate::lock_per_box::outstanding::{Boards, BoxSeat, DealsPass};
use crate::lock_per_box::pass::BoxPass;
use crate::lock_per_box::visiting::STRIDE;
use crate::mail::Mail;
use crate::world::Shown;
use atomic_table::{Refused, Table};
use post_ledger::Mailbox;
use std::alloc::{AllocError, Allocator};

/// The mailbox with this number, with the opening post if it is the one that has it.
fn first_box<M: Copy, A: Allocator + Clone>(
    alloc: &A,
    number: u8,
    boxes: u8,
    to: u8,
    first: M,
) -> Result<Mailbox<M, A>, AllocError>
    ensures { IfOk result (λ h. h ≡ part number (Posted to boxes first 0 ∷ [])) }
{
    let mut mailbox = Mailbox::new(alloc.clone()?, alloc.clone()?);
    if number == to {
        match mailbox.post(boxes, first) {
            Err(_) => return Err(AllocError),
            Ok(()) => {}
        }
    }
    Ok(mailbox)
}

/// All mailboxes, one of them with the opening post.
fn first_boxes<M: Copy, A: Allocator + Clone>(
    alloc: &A,
    boxes: u8,
    to: u8,
    first: M,
) -> Result<Vec<Option<Mailbox<M, A>>, A>, AllocError>
    ensures { IfOk result (λ v. (length v.items ≡ boxes)
        × ((q : ℕ) (h : Option (List (Event M))) → slice_get v.items q ≡ Some h
        → h ≡ Some (part q (Posted to boxes first 0 ∷ [])))) }
{
    let mut slots = Vec::with_capacity(alloc.clone()?, usize::from(boxes))?;
    for number in 0..boxes {
        let mailbox = first_box(alloc, number, boxes, to, first)?;
        slots.push_reserved(Some(mailbox));
    }
    Ok(slots)
}

/// The words of a board with one outstanding post.
fn first_words<A: Allocator>(alloc: A, boxes: u8) -> Result<Vec<u64, A>, AllocError>
    ensures { IfOk result (λ v. (length v.items ≡ 8 * (boxes + 1)) × (get_or v.items 0 0 ≡ 1)
        × ((k : ℕ) → 0 < k → get_or v.items k 0 ≡ 0)) }
{
    let mut words = vec![in alloc; 0u64; STRIDE * (usize::from(boxes) + 1)]?;
    words[0] = 1;
    Ok(words)
}

fn lay<W, M: Mail<W>, A: Allocator + Clone>(
    alloc: A,
    about: &Ground<M, W>,
) -> Result<(BoxTable<M, W, A>, BoxSeat<M, W, A>), AllocError>
    requires boxes { (about.now.to < about.now.boxes) × (about.now.boxes ≤ 64) }
    requires fits { M.fits about.now.world.value about.now.to about.now.first }
    ensures { IfOk result
        (λ r. (r.0.shared.key ≡ about.now) × IsBoardTable r.0.shared.table_id about.now.boxes
        × (r.1.table_id ≡ r.0.shared.table_id)
        × (r.1.me ≡ (first_view about.now 0 about.now.boxes, []))) }
{
    let words = first_words(alloc.clone()?, about.boxes)?;
    let slots = first_boxes(&alloc, about.boxes, about.to, about.first)?;
    match Table::new(alloc, words.as_slice(), slots, about) {
        Ok(made) => Ok(made),
        Err(refused) => {
            let Refused { slots: _ } = refused;
            Err(AllocError)
        }
    }
}

/// Gives each pass a seat of its own.
fn deal<W, M: Mail<W>, A: Allocator>(
    shared: &Boards<M, W, A>,
    mut seat: BoxSeat<M, W, A>,
    passes: &mut Vec<BoxPass<M, W, A>, A>,
    world: &W,
    boxes: u8,
    calls: u64,
)
    requires table { (seat.table_id ≡ shared.now.table_id) × IsBoardTable shared.now.table_id boxes
        × (shared.now.key.boxes ≡ boxes) × (shared.now.key.world.value ≡ world.now) }
    requires fits { (shared.now.key.to < boxes)
        × M.fits world.now shared.now.key.to shared.now.key.first }
    requires calls { calls ≤ 2 ^ 56 }
    requires seat { seat.me ≡ (first_view shared.now.key 0 boxes, []) }
    requires room { (passes.old.items ≡ []) × (boxes ≤ vec_capacity passes.old) }
    ensures { passes.new.items ≡ fresh_sights shared.now.table_id (calls + 1)
        (opened world.now boxes shared.now.key.to shared.now.key.first) 0 boxes }
{
    for number in 0..boxes {
        let own = shared.split_seat::<DealsPass>(&mut seat);
        passes.push_reserved(BoxPass {
            seat: own,
            world: Shown::of(world),
            boxes,
            number,
            left: calls,
            made: false,
        });
    }
}

impl<M: Mail<W>, W, A: Allocator> LockPerBox<M, W, A> {
    /// The board that begins with these parameters, and its passes.
    pub(crate) fn of(
        alloc: A,
        world: &W,
        about: Ground<M, W>,
        budget: u64,
    ) -> Result<(Self, Vec<BoxPass<M, W, A>, A>), AllocError>
    where
        A: Clone,
        requires world { about.world.value ≡ world.now }
        requires boxes { (about.to < about.boxes) × (about.boxes ≤ 64) }
        requires budget { (2 ≤ budget) × (budget ≤ 2 ^ 56) }
        requires fits { M.fits world.now about.to about.first }
        ensures { IfOk result (λ r. (r.0.table.shared.key.boxes ≡ about.boxes) × (r.1.items
            ≡ fresh_sights r.0.table.shared.table_id budget
            (opened world.now about.boxes about.to about.first) 0 about.boxes)) }
    {
        let boxes = about.boxes;
        let room = Vec::with_capacity(alloc.clone()?, usize::from(boxes))?;
        let mut passes = Vec::with_capacity(alloc.clone()?, usize::from(boxes))?;
        let (table, seat) = lay(alloc, &about)?;
        deal(&table.shared, seat, &mut passes, world, boxes, budget - 1);
        Ok((LockPerBox { table, room }, passes))
    }
}
