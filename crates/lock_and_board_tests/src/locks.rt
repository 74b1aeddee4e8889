//! Rows of the lock, worked out by hand.
ghost use Rattle.std.specs.Prelude.{◌≡◌, ◌+◌, ◌<◌, ◌≤◌, [], All, vec_len};
ghost use Rattle.ticket_lock.specs.Promises.{IsIdle, IsWaiting};

use scarce::Scarce;
use std::alloc::{Allocator, Global};
use std::process::Abort;
use std::sync::Wait;
use std::thread::{Threads, join};
use ticket_lock::{Lane, LaneLaw, Ticket, TicketLock};

// A list of pairs of a lane's number and a mark. Nothing is said of a lane's part.
#[derive(Drop)]
struct Marks<A: Allocator> {
    marks: Vec<(u64, u64), A>,
}

impl<A: Allocator> LaneLaw for Marks<A> {
    type Part = ();

    ghost before = { λ x y. Unit {0} };

    ghost part = { λ lane x. tt };

    ghost reflexive = { λ x. tt };

    ghost transitive = { λ x y z first second. tt };
}

type Lock<A> = TicketLock<Marks<A>, A>;

type MarkLane<A> = Lane<Marks<A>>;

fn open<R: Abort, A: Allocator + Clone>(
    rt: &R,
    alloc: A,
    lanes: u8,
    budget: u64,
) -> (Lock<A>, Vec<MarkLane<A>, A>)
    requires { (0 < lanes) × (lanes ≤ 64) × (2 ≤ budget) × (budget ≤ 1000000) }
    ensures { All (IsIdle result.0.id) result.1.items × (vec_len result.1 ≡ lanes)
        × (result.0.lanes ≡ lanes) }
{
    let Ok(heap) = alloc.clone() else {
        panic!(rt; "no memory")
    };
    let first = Marks {
        marks: Vec::new(heap),
    };
    match Lock::with_budget(alloc, first, lanes, budget) {
        Ok(made) => made,
        Err(_) => panic!(rt; "no memory"),
    }
}

fn next_lane<R: Abort, A: Allocator>(
    rt: &R,
    lock: &Lock<A>,
    lanes: &mut Vec<MarkLane<A>, A>,
) -> MarkLane<A>
    requires { All (IsIdle lock.now.id) lanes.old.items }
    ensures lane { IsIdle lock.now.id result }
    ensures others { All (IsIdle lock.now.id) lanes.new.items
        × (vec_len lanes.new + 1 ≡ vec_len lanes.old) }
{
    match lanes.pop() {
        Some(lane) => lane,
        None => panic!(rt; "no lane"),
    }
}

fn give_back<R: Abort, A: Allocator>(
    rt: &R,
    lock: &Lock<A>,
    lanes: &mut Vec<MarkLane<A>, A>,
    lane: MarkLane<A>,
)
    requires { All (IsIdle lock.now.id) lanes.old.items × IsIdle lock.now.id lane }
    ensures { All (IsIdle lock.now.id) lanes.new.items
        × (vec_len lanes.new ≡ vec_len lanes.old + 1) }
{
    match lanes.push(lane) {
        Ok(()) => {}
        Err(_) => panic!(rt; "no memory"),
    }
}

fn finish<A: Allocator>(lock: Lock<A>, lanes: Vec<MarkLane<A>, A>) -> Marks<A>
    requires { All (IsIdle lock.id) lanes.items × (vec_len lanes ≡ lock.lanes) }
{
    lock.close(lanes.into_iter())
}

// Draws a ticket, which must have this number.
fn draw<R: Abort, A: Allocator>(
    rt: &R,
    lock: &Lock<A>,
    lane: &mut MarkLane<A>,
    wanted: u64,
) -> Ticket
    requires { IsIdle lock.now.id lane.old }
    ensures { IsWaiting lock.now.id result lane.new }
{
    let Ok(ticket) = lock.draw(lane) else {
        panic!(rt; "no ticket")
    };
    assert!(rt; ticket.number() == wanted);
    ticket
}

// Looks before it is the ticket's turn.
fn look_early<R: Abort, A: Allocator>(
    rt: &R,
    lock: &Lock<A>,
    lane: &mut MarkLane<A>,
    ticket: Ticket,
) -> Ticket
    requires { IsWaiting lock.now.id ticket lane.old }
    ensures { IsWaiting lock.now.id result lane.new }
{
    match lock.look(lane, ticket) {
        Ok(_guard) => panic!(rt; "one ticket early"),
        Err(back) => back,
    }
}

// Looks in turn, adds a mark and leaves. A given number of marks must be there before.
fn serve<R: Abort, A: Allocator>(
    rt: &R,
    lock: &Lock<A>,
    lane: &mut MarkLane<A>,
    ticket: Ticket,
    mark: u64,
    wanted: usize,
)
    requires { IsWaiting lock.now.id ticket lane.old }
    ensures { IsIdle lock.now.id lane.new }
{
    let mut guard = match lock.look(lane, ticket) {
        Ok(guard) => guard,
        Err(_back) => panic!(rt; "not served"),
    };
    let number = lane.number();
    let marks = &mut guard.value().marks;
    let found = marks.len();
    let _ = marks.push((number, mark));
    lock.leave(lane, guard);
    assert!(rt; found == wanted);
}

// Draws a ticket with this number, and is served at the first look, with as many marks before.
fn draw_and_serve<R: Abort, A: Allocator>(
    rt: &R,
    lock: &Lock<A>,
    lane: &mut MarkLane<A>,
    number: u64,
    mark: u64,
    wanted: usize,
)
    requires { IsIdle lock.now.id lane.old }
    ensures { IsIdle lock.now.id lane.new }
{
    let ticket = draw(rt, lock, lane, number);
    serve(rt, lock, lane, ticket, mark, wanted);
}

// The first lane is served before the second, which looked first.
fn in_turn<R: Abort, A: Allocator>(
    rt: &R,
    lock: &Lock<A>,
    first: &mut MarkLane<A>,
    second: &mut MarkLane<A>,
)
    requires { IsIdle lock.now.id first.old × IsIdle lock.now.id second.old }
    ensures { IsIdle lock.now.id first.new × IsIdle lock.now.id second.new }
{
    let ticket = draw(rt, lock, first, 0);
    let later = draw(rt, lock, second, 1);
    let later = look_early(rt, lock, second, later);
    serve(rt, lock, first, ticket, 5, 0);
    serve(rt, lock, second, later, 7, 1);
}

#[test]
fn guards_go_out_in_the_order_of_the_tickets(rt: HostRuntime) {
    let (lock, mut lanes) = open(&rt, rt.alloc(), 2, 1000);
    let mut second = next_lane(&rt, &lock, &mut lanes);
    let mut first = next_lane(&rt, &lock, &mut lanes);
    in_turn(&rt, &lock, &mut first, &mut second);
    give_back(&rt, &lock, &mut lanes, first);
    give_back(&rt, &lock, &mut lanes, second);
    let last = finish(lock, lanes);
    assert!(rt; last.marks.as_slice() == [(0, 5), (1, 7)].as_slice());
}

#[test]
fn a_lane_is_spent_after_its_budget(rt: HostRuntime) {
    let (lock, mut lanes) = open(&rt, rt.alloc(), 1, 3);
    let mut lane = next_lane(&rt, &lock, &mut lanes);
    draw_and_serve(&rt, &lock, &mut lane, 0, 0, 0);
    draw_and_serve(&rt, &lock, &mut lane, 1, 1, 1);
    draw_and_serve(&rt, &lock, &mut lane, 2, 2, 2);
    assert!(rt; lane.left() == 0);
    if let Ok(_more) = lock.draw(&mut lane) {
        panic!(rt; "a fourth ticket");
    }
}

// The second lane learns of the value that the first one left, and is then served at its first look.
fn learns<R: Abort, A: Allocator>(
    rt: &R,
    lock: &Lock<A>,
    first: &mut MarkLane<A>,
    second: &mut MarkLane<A>,
)
    requires { IsIdle lock.now.id first.old × IsIdle lock.now.id second.old }
{
    draw_and_serve(rt, lock, first, 0, 1, 0);
    let note = lock.tell(first);
    lock.learn(second, note);
    draw_and_serve(rt, lock, second, 1, 2, 1);
}

#[test]
fn a_lane_that_learned_is_served_at_its_first_look(rt: HostRuntime) {
    let (lock, mut lanes) = open(&rt, rt.alloc(), 2, 1000);
    let mut second = next_lane(&rt, &lock, &mut lanes);
    let mut first = next_lane(&rt, &lock, &mut lanes);
    learns(&rt, &lock, &mut first, &mut second);
}

// How many lanes a lock of three has. Its value comes back if it gets no memory.
fn lanes_of<R: Abort, H: Allocator + Clone, A: Allocator>(
    rt: &R,
    heap: H,
    first: Marks<A>,
) -> Option<usize> {
    match TicketLock::with_budget(heap, first, 3, 5) {
        Ok((_lock, lanes)) => Some(lanes.len()),
        Err(back) => {
            assert!(rt; back.marks.as_slice() == [(7, 8)].as_slice());
            None
        }
    }
}

// Whether the allocation with this number was refused to the lock.
fn was_refused<R: Abort, A: Allocator>(rt: &R, host: A, first: Marks<A>, nth: u64) -> bool {
    let scarce = Scarce::refusing(host, nth);
    let lanes = lanes_of(rt, &scarce, first);
    let wanted = if scarce.refused() { None } else { Some(3) };
    assert!(rt; lanes == wanted);
    scarce.refused()
}

#[test]
fn a_refused_lock_hands_its_value_back(rt: HostRuntime) {
    for nth in 1..20u64 {
        let Ok(marks) = Vec::from_elem(rt.alloc(), (7u64, 8u64), 1) else {
            panic!(rt; "no memory")
        };
        if !was_refused(&rt, rt.alloc(), Marks { marks }, nth) {
            return;
        }
    }
    panic!(&rt; "refused without end")
}

// Enters, adds a mark and leaves, `rounds` times.
fn work<R: Wait>(
    rt: &R,
    lock: &Lock<Global>,
    mut lane: MarkLane<Global>,
    rounds: u64,
) -> MarkLane<Global>
    requires { IsIdle lock.now.id lane }
    ensures { IsIdle lock.now.id result }
{
    for mark in 0..rounds {
        let Ok(mut guard) = lock.enter(rt, &mut lane) else {
            return lane;
        };
        let number = lane.number();
        let _ = guard.value().marks.push((number, mark));
        lock.leave(&mut lane, guard);
    }
    lane
}

fn two_work<R: Threads + Wait + Sync>(
    rt: &R,
    lock: &Lock<Global>,
    first: MarkLane<Global>,
    second: MarkLane<Global>,
    rounds: u64,
) -> (MarkLane<Global>, MarkLane<Global>)
    requires { IsIdle lock.now.id first × IsIdle lock.now.id second }
    ensures { IsIdle lock.now.id result.0 × IsIdle lock.now.id result.1 }
{
    join(
        rt,
        move || work(rt, lock, first, rounds),
        move || work(rt, lock, second, rounds),
    )
}

// How many marks the lane has, if they are 0, 1, 2 and so on, in order.
fn in_order(marks: &[(u64, u64)], lane: u64) -> Option<u64> {
    let mut next = 0;
    for (by, mark) in marks {
        if *by == lane {
            if *mark != next {
                return None;
            }
            next += 1;
        }
    }
    Some(next)
}

#[test]
fn four_threads_enter(rt: HostRuntime) {
    let (lock, mut lanes) = open(&rt, rt.alloc(), 4, 1000);
    let a = next_lane(&rt, &lock, &mut lanes);
    let b = next_lane(&rt, &lock, &mut lanes);
    let c = next_lane(&rt, &lock, &mut lanes);
    let d = next_lane(&rt, &lock, &mut lanes);
    let ((a, b), (c, d)) = join(
        &rt,
        || two_work(&rt, &lock, a, b, 1000),
        || two_work(&rt, &lock, c, d, 1000),
    );
    give_back(&rt, &lock, &mut lanes, a);
    give_back(&rt, &lock, &mut lanes, b);
    give_back(&rt, &lock, &mut lanes, c);
    give_back(&rt, &lock, &mut lanes, d);
    let last = finish(lock, lanes);
    assert!(rt; last.marks.len() == 4000);
    for lane in 0..4u64 {
        assert!(rt; in_order(last.marks.as_slice(), lane) == Some(1000));
    }
}
