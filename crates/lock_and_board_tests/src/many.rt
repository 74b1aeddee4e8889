//! Many messages, of four threads at work on one board.
ghost use Rattle.std.specs.Prelude.{◌≡◌, ◌<◌};
ghost use Rattle.post_ledger.specs.Orders.{HasJob};
ghost use Rattle.lock_and_board_tests.specs.Passes.{IsSame, IsPassNumbered, KeepsJobs};

use crate::boards::{Letter, Letters, done, gather, message, post, settle};
use post_ledger::{Event, Ledger, Mailbox, Side, by_sender};
use std::alloc::{Allocator, Global};
use std::process::Abort;
use std::sync::Wait;
use std::thread;
use std::thread::{Threads, join};
use switchboard::{Board, Job, LockPerBox, OneLock, Taken};

// How many messages each thread posts.
const MESSAGES: u32 = 10_000;

// How many times, at most, a thread looks for a message after its own posts.
const LOOKS: u32 = 10_000_000;

// The result of a look for a message.
#[derive(Clone, Copy, PartialEq, Eq)]
enum Look {
    Served,
    Empty,
    Closed,
}

// Takes a message and completes it, if there is one.
fn serve<R: Wait + Abort, B: Letters>(rt: &R, board: &B, pass: &mut B::Pass) -> Look
    requires { (B.sight pass.old).board ≡ B.identity board.now }
    ensures pass { IsSame (B.sight pass.old) (B.sight pass.new) }
    ensures keeps { KeepsJobs (B.sight pass.old) (B.sight pass.new) }
{
    match Board::take(board, rt, pass) {
        Ok(Taken::Message(job, _)) => {
            done(rt, board, pass, job);
            Look::Served
        }
        Ok(Taken::Empty) => Look::Empty,
        Ok(Taken::Closed) => Look::Closed,
        Ok(Taken::Aborted) | Err(_) => panic!(rt; "stopped"),
    }
}

// Posts its messages to the four mailboxes in turn, and takes one between two posts.
fn posts<R: Wait + Abort, B: Letters>(rt: &R, board: &B, pass: &mut B::Pass, job: &Job, sender: u32)
    requires board { ((B.sight pass.old).board ≡ B.identity board.now)
        × ((B.sight pass.old).seen.boxes ≡ 4) }
    requires job { HasJob (B.sight pass.old).number job.now (B.sight pass.old).seen.order }
    requires sender { sender < 4 }
    ensures pass { IsSame (B.sight pass.old) (B.sight pass.new) }
    ensures job { HasJob (B.sight pass.new).number job.now (B.sight pass.new).seen.order }
{
    for n in 0..MESSAGES {
        let to = ((sender + n) % 4) as u8;
        if post(rt, board, pass, job, to, sender * 100_000 + n + 1).is_err() {
            panic!(rt; "refused");
        }
        let _look = serve(rt, board, pass);
    }
}

// Looks for messages until the board is closed. Returns whether it found the close.
fn drain<R: Wait + Abort, B: Letters>(rt: &R, board: &B, pass: &mut B::Pass) -> bool
    requires { (B.sight pass.old).board ≡ B.identity board.now }
    ensures { IsSame (B.sight pass.old) (B.sight pass.new) }
{
    for _look in 0..LOOKS {
        match serve(rt, board, pass) {
            Look::Served => {}
            Look::Empty => thread::yield_now(),
            Look::Closed => return true,
        }
    }
    false
}

// What one thread does: all its posts are under the job of the first message of its mailbox.
fn work<R: Wait + Abort, B: Letters>(
    rt: &R,
    board: &B,
    mut pass: B::Pass,
    sender: u32,
) -> (B::Pass, bool)
    requires { ((B.sight pass).board ≡ B.identity board.now) × ((B.sight pass).seen.boxes ≡ 4)
        × (sender < 4) }
    ensures { IsSame (B.sight pass) (B.sight result.0) }
{
    let (job, _first) = message(rt, board, &mut pass);
    posts(rt, board, &mut pass, &job, sender);
    done(rt, board, &mut pass, job);
    let closed = drain(rt, board, &mut pass);
    (pass, closed)
}

// The work of two threads, and whether both found the close.
fn two_work<R: Threads + Wait + Abort + Sync, B: Letters + Sync>(
    rt: &R,
    board: &B,
    one: B::Pass,
    two: B::Pass,
    sender: u32,
) -> (B::Pass, B::Pass, bool)
where
    B::Heap: Send + Sync,
    B::Pass: Drop + Send,
    requires one { ((B.sight one).board ≡ B.identity board.now) × ((B.sight one).seen.boxes ≡ 4) }
    requires two { ((B.sight two).board ≡ B.identity board.now) × ((B.sight two).seen.boxes ≡ 4) }
    requires sender { sender < 3 }
    ensures one { IsSame (B.sight one) (B.sight result.0) }
    ensures two { IsSame (B.sight two) (B.sight result.1) }
{
    let next = sender + 1;
    let ((one, one_closed), (two, two_closed)) = join(
        rt,
        move || work(rt, board, one, sender),
        move || work(rt, board, two, next),
    );
    (one, two, one_closed && two_closed)
}

// A board of four mailboxes, with the opening post 0 in mailbox 0, and its passes.
fn four<R: Abort, B: Letters>(rt: &R, alloc: B::Heap) -> (B, B::Pass, B::Pass, B::Pass, B::Pass)
where
    B::Heap: Clone,
    B::Pass: Drop,
    ensures board { B.mailboxes result.0 ≡ 4 }
    ensures a { ((B.sight result.1).board ≡ B.identity result.0)
        × IsPassNumbered 0 4 (B.sight result.1) }
    ensures b { ((B.sight result.2).board ≡ B.identity result.0)
        × IsPassNumbered 1 4 (B.sight result.2) }
    ensures c { ((B.sight result.3).board ≡ B.identity result.0)
        × IsPassNumbered 2 4 (B.sight result.3) }
    ensures d { ((B.sight result.4).board ≡ B.identity result.0)
        × IsPassNumbered 3 4 (B.sight result.4) }
{
    let Ok((board, mut passes)) = B::open(alloc, &(), 4, 0, Letter(0)) else {
        panic!(rt; "no memory")
    };
    let Some(d) = passes.pop() else {
        panic!(rt; "no pass")
    };
    let Some(c) = passes.pop() else {
        panic!(rt; "no pass")
    };
    let Some(b) = passes.pop() else {
        panic!(rt; "no pass")
    };
    let Some(a) = passes.pop() else {
        panic!(rt; "no pass")
    };
    (board, a, b, c, d)
}

// The opening message is taken, and one message posted to each mailbox, to begin the work of each pass.
fn begins<R: Wait + Abort, B: Letters>(rt: &R, board: &B, a: &mut B::Pass)
    requires { ((B.sight a.old).board ≡ B.identity board.now) × ((B.sight a.old).seen.boxes ≡ 4) }
    ensures { IsSame (B.sight a.old) (B.sight a.new) }
{
    let (job, _opening) = message(rt, board, a);
    for to in 0..4u8 {
        assert!(rt; post(rt, board, a, &job, to, 0).is_ok());
    }
    done(rt, board, a, job);
}

// How many messages there are, if each is greater than those before it.
fn rising(messages: &[Letter]) -> Option<usize> {
    for (i, message) in messages.iter().enumerate() {
        if i > 0 && message.0 <= messages[i - 1].0 {
            return None;
        }
    }
    Some(messages.len())
}

// How many messages of a sender a mailbox got, if there is memory for three lists, they were taken as they were posted,
// and rise.
fn taken_in_order<A: Allocator + Copy, H: Allocator>(
    alloc: A,
    mailbox: &Mailbox<Letter, H>,
    sender: u8,
) -> Option<usize> {
    let history: Vec<Event<Letter>, A> = mailbox.history().collect(alloc).ok()?;
    let posted = by_sender(alloc, history.as_slice(), sender, Side::Posts).ok()?;
    let taken = by_sender(alloc, history.as_slice(), sender, Side::Takes).ok()?;
    if posted.as_slice() == taken.as_slice() {
        rising(posted.as_slice())
    } else {
        None
    }
}

// The senders' messages, `count` of each, came to each mailbox in order.
fn came_in_order<R: Abort, A: Allocator + Copy, H: Allocator>(
    rt: &R,
    alloc: A,
    histories: &[Mailbox<Letter, H>],
    wanted: &[(u8, usize)],
) {
    for mailbox in histories {
        for (sender, count) in wanted {
            assert!(rt; taken_in_order(alloc, mailbox, *sender) == Some(*count));
        }
    }
}

// The ledger of a board whose passes are these four.
fn settle_four<R: Abort, B: Letters>(
    rt: &R,
    alloc: B::Heap,
    board: B,
    first: (B::Pass, B::Pass),
    second: (B::Pass, B::Pass),
) -> Ledger<Letter, B::Heap>
where
    B::Pass: Drop,
    requires board { B.mailboxes board ≡ 4 }
    requires a { ((B.sight first.0).board ≡ B.identity board)
        × IsPassNumbered 0 4 (B.sight first.0) }
    requires b { ((B.sight first.1).board ≡ B.identity board)
        × IsPassNumbered 1 4 (B.sight first.1) }
    requires c { ((B.sight second.0).board ≡ B.identity board)
        × IsPassNumbered 2 4 (B.sight second.0) }
    requires d { ((B.sight second.1).board ≡ B.identity board)
        × IsPassNumbered 3 4 (B.sight second.1) }
{
    let (a, b) = first;
    let (c, d) = second;
    let mut passes = Vec::new(alloc);
    gather(rt, &board, &mut passes, a);
    gather(rt, &board, &mut passes, b);
    gather(rt, &board, &mut passes, c);
    gather(rt, &board, &mut passes, d);
    settle(board, passes)
}

// Four threads at work on one board, up to its end.
fn worked<R: Threads + Wait + Abort + Sync, B: Letters + Sync>(
    rt: &R,
    alloc: B::Heap,
    more: B::Heap,
) -> Ledger<Letter, B::Heap>
where
    B::Heap: Clone + Send + Sync,
    B::Pass: Drop + Send,
{
    let (board, mut a, b, c, d) = four::<R, B>(rt, alloc);
    begins(rt, &board, &mut a);
    let shared = &board;
    let ((a, b, first), (c, d, second)) = join(
        rt,
        move || -> (B::Pass, B::Pass, bool)
            requires a { ((B.sight a).board ≡ B.identity shared.now)
                × ((B.sight a).seen.boxes ≡ 4) }
            requires b { ((B.sight b).board ≡ B.identity shared.now)
                × ((B.sight b).seen.boxes ≡ 4) }
            ensures a { IsSame (B.sight a) (B.sight result.0) }
            ensures b { IsSame (B.sight b) (B.sight result.1) }
        { two_work(rt, shared, a, b, 0) },
        move || -> (B::Pass, B::Pass, bool)
            requires c { ((B.sight c).board ≡ B.identity shared.now)
                × ((B.sight c).seen.boxes ≡ 4) }
            requires d { ((B.sight d).board ≡ B.identity shared.now)
                × ((B.sight d).seen.boxes ≡ 4) }
            ensures c { IsSame (B.sight c) (B.sight result.0) }
            ensures d { IsSame (B.sight d) (B.sight result.1) }
        { two_work(rt, shared, c, d, 2) },
    );
    assert!(rt; first && second);
    settle_four(rt, more, board, (a, b), (c, d))
}

fn four_threads_close<R: Threads + Wait + Abort + Sync, B: Letters + Sync>(
    rt: &R,
    alloc: B::Heap,
    more: B::Heap,
    lists: Global,
)
where
    B::Heap: Clone + Send + Sync,
    B::Pass: Drop + Send,
{
    let ledger = worked::<R, B>(rt, alloc, more);
    assert!(rt; ledger.closed && ledger.histories.len() == 4);
    // The first pass began the work of each by one more message.
    let wanted = [(0, 2_501), (1, 2_500), (2, 2_500), (3, 2_500)];
    came_in_order(rt, lists, ledger.histories.as_slice(), wanted.as_slice());
}

#[test]
fn four_threads_behind_one_lock(rt: HostRuntime) {
    four_threads_close::<_, OneLock<Letter, (), Global>>(&rt, rt.alloc(), rt.alloc(), rt.alloc());
}

#[test]
fn four_threads_behind_a_lock_for_each(rt: HostRuntime) {
    four_threads_close::<_, LockPerBox<Letter, (), Global>>(
        &rt,
        rt.alloc(),
        rt.alloc(),
        rt.alloc(),
    );
}
