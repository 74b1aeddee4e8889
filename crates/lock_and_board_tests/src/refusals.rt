//! Each allocation of a board refused in turn.
ghost use Rattle.std.specs.Prelude.{◌≡◌, ◌<◌};
ghost use Rattle.post_ledger.specs.Orders.{HasJob};
ghost use Rattle.lock_and_board_tests.specs.Passes.{IsSame, KeepsJobs};

use crate::boards::{Answer, Letter, Letters, done, finds, message, post};
use scarce::Scarce;
use std::alloc::Allocator;
use std::process::Abort;
use std::sync::Wait;
use switchboard::{Job, LockPerBox, OneLock, PostFault};

// Posts a message. If it is refused memory, it comes back, and its second post is Ok. Returns whether it was refused.
fn post_twice<R: Wait + Abort, B: Letters>(
    rt: &R,
    board: &B,
    pass: &mut B::Pass,
    job: &Job,
    to: u8,
    message: u32,
) -> bool
    requires board { ((B.sight pass.old).board ≡ B.identity board.now)
        × (to < (B.sight pass.old).seen.boxes) }
    requires job { HasJob (B.sight pass.old).number job.now (B.sight pass.old).seen.order }
    ensures pass { IsSame (B.sight pass.old) (B.sight pass.new) }
    ensures job { HasJob (B.sight pass.new).number job.now (B.sight pass.new).seen.order }
{
    let back = match post(rt, board, pass, job, to, message) {
        Ok(()) => return false,
        Err(PostFault::Memory(back)) => back.0,
        Err(PostFault::Spent(_)) | Err(PostFault::Aborted(_)) => panic!(rt; "stopped"),
    };
    assert!(rt; back == message);
    if post(rt, board, pass, job, to, back).is_err() {
        panic!(rt; "refused twice");
    }
    true
}

// Posts 20 messages, to mailboxes 0 and 2 in turn. Returns how many were refused.
fn posts<R: Wait + Abort, B: Letters>(rt: &R, board: &B, pass: &mut B::Pass, job: &Job) -> u32
    requires board { ((B.sight pass.old).board ≡ B.identity board.now)
        × (2 < (B.sight pass.old).seen.boxes) }
    requires job { HasJob (B.sight pass.old).number job.now (B.sight pass.old).seen.order }
    ensures pass { IsSame (B.sight pass.old) (B.sight pass.new) }
    ensures job { HasJob (B.sight pass.new).number job.now (B.sight pass.new).seen.order }
{
    let mut refused = 0u32;
    for n in 0..20u32 {
        let to = if n % 2 == 0 { 0u8 } else { 2u8 };
        if post_twice(rt, board, pass, job, to, n) {
            refused = refused.wrapping_add(1);
        }
    }
    refused
}

// Takes the 10 messages of a mailbox, each once and in order: the even ones, or the odd ones.
fn takes<R: Wait + Abort, B: Letters>(rt: &R, board: &B, pass: &mut B::Pass, first: u32)
    requires { (B.sight pass.old).board ≡ B.identity board.now }
    ensures pass { IsSame (B.sight pass.old) (B.sight pass.new) }
    ensures keeps { KeepsJobs (B.sight pass.old) (B.sight pass.new) }
{
    for n in 0..10u32 {
        let (job, message) = message(rt, board, pass);
        if message != first.wrapping_add(n * 2) {
            panic!(rt; "another message");
        }
        done(rt, board, pass, job);
    }
}

// Posts 20 messages and takes them, and the board is closed then. One post is refused if an allocation is refused to
// the posts; takes and completions request none.
fn serves<R: Wait + Abort, A: Allocator, B: Letters>(
    rt: &R,
    scarce: &Scarce<A>,
    board: &B,
    pass: &mut B::Pass,
    other: &mut B::Pass,
)
    requires pass { ((B.sight pass.old).board ≡ B.identity board.now)
        × (2 < (B.sight pass.old).seen.boxes) }
    requires other { (B.sight other.old).board ≡ B.identity board.now }
{
    let (job, _first) = message(rt, board, pass);
    let before = scarce.refused();
    let refused = posts(rt, board, pass, &job);
    assert!(rt; (refused == 1) == (scarce.refused() && !before));
    let asked = scarce.asked();
    takes(rt, board, pass, 0);
    takes(rt, board, other, 1);
    done(rt, board, pass, job);
    finds(rt, board, pass, Answer::Closed);
    assert!(rt; scarce.asked() == asked);
}

// A board of three mailboxes, each of whose allocations is that of `heap`, serves 20 messages, unless it gets no
// memory for itself.
fn tries<R: Wait + Abort, A: Allocator, B: Letters + Drop>(
    rt: &R,
    scarce: &Scarce<A>,
    heap: B::Heap,
)
where
    B::Heap: Clone,
    B::Pass: Drop,
{
    let Ok((board, mut passes)) = B::open(heap, &(), 3, 0, Letter(100)) else {
        assert!(rt; scarce.refused(), "no memory for the board");
        return;
    };
    let Some(mut other) = passes.pop() else {
        panic!(rt; "no pass")
    };
    let Some(_between) = passes.pop() else {
        panic!(rt; "no pass")
    };
    let Some(mut pass) = passes.pop() else {
        panic!(rt; "no pass")
    };
    serves(rt, scarce, &board, &mut pass, &mut other);
}

// Whether the allocation with this number was refused to a board behind one lock.
fn one_lock<R: Wait + Abort, A: Allocator>(rt: &R, host: A, nth: u64) -> bool {
    let scarce = Scarce::refusing(host, nth);
    tries::<R, A, OneLock<Letter, (), &Scarce<A>>>(rt, &scarce, &scarce);
    assert!(rt; scarce.live() == 0);
    scarce.refused()
}

// The same for a board with a lock for each mailbox.
fn a_lock_for_each<R: Wait + Abort, A: Allocator>(rt: &R, host: A, nth: u64) -> bool {
    let scarce = Scarce::refusing(host, nth);
    tries::<R, A, LockPerBox<Letter, (), &Scarce<A>>>(rt, &scarce, &scarce);
    assert!(rt; scarce.live() == 0);
    scarce.refused()
}

#[test]
fn each_allocation_behind_one_lock(rt: HostRuntime) {
    for nth in 1..100u64 {
        if !one_lock(&rt, rt.alloc(), nth) {
            return;
        }
    }
    panic!(&rt; "refused without end")
}

#[test]
fn each_allocation_behind_a_lock_for_each(rt: HostRuntime) {
    for nth in 1..100u64 {
        if !a_lock_for_each(&rt, rt.alloc(), nth) {
            return;
        }
    }
    panic!(&rt; "refused without end")
}
