//! Helpers of the rows of boards, and the rows, whose answers are worked out by hand.
ghost use Rattle.std.specs.Prelude.{◌≡◌, ◌≢◌, ◌+◌, ◌<◌, ◌≤◌, ℕ, map, vec_len};
ghost use Rattle.post_ledger.specs.Orders.{HasJob};
ghost use Rattle.switchboard.specs.Promises.{AreFirst};
ghost use Rattle.lock_and_board_tests.specs.Passes.{IsSame, KeepsJobs};

use crate::mailboxes::is_history;
use post_ledger::{Event, Ledger, Mailbox};
use std::alloc::{Allocator, Global};
use std::process::Abort;
use std::sync::Wait;
use switchboard::{Board, Cause, Job, LockPerBox, Mail, OneLock, PostFault, Taken};
use ticket_lock::Spent;

/// A message of the rows, which fits every mailbox.
#[derive(Clone, Copy, PartialEq, Eq)]
pub(crate) struct Letter(pub(crate) u32);

impl Mail<()> for Letter {
    ghost use Rattle.std.specs.Prelude.{ℕ};

    ghost fits = { λ world mailbox message. Unit {0} };
}

/// A board of letters.
pub(crate) trait Letters: Board<Letter, (), Self::Heap> {
    type Heap: Allocator;
}

impl<A: Allocator> Letters for OneLock<Letter, (), A> {
    type Heap = A;
}

impl<A: Allocator> Letters for LockPerBox<Letter, (), A> {
    type Heap = A;
}

// Takes a message, which must be there.
pub(crate) fn message<R: Wait + Abort, B: Letters>(
    rt: &R,
    board: &B,
    pass: &mut B::Pass,
) -> (Job, u32)
    requires { (B.sight pass.old).board ≡ B.identity board.now }
    ensures pass { IsSame (B.sight pass.old) (B.sight pass.new) }
    ensures job { HasJob (B.sight pass.new).number result.0 (B.sight pass.new).seen.order }
    ensures fresh { (j : ℕ) → HasJob (B.sight pass.old).number j (B.sight pass.old).seen.order
        → j ≢ result.0 }
    ensures keeps { KeepsJobs (B.sight pass.old) (B.sight pass.new) }
{
    match Board::take(board, rt, pass) {
        Ok(Taken::Message(job, letter)) => (job, letter.0),
        Ok(Taken::Empty) | Ok(Taken::Closed) | Ok(Taken::Aborted) | Err(Spent) => {
            panic!(rt; "no message")
        }
    }
}

// Takes a message, which must be this one.
pub(crate) fn takes<R: Wait + Abort, B: Letters>(
    rt: &R,
    board: &B,
    pass: &mut B::Pass,
    wanted: u32,
) -> Job
    requires { (B.sight pass.old).board ≡ B.identity board.now }
    ensures pass { IsSame (B.sight pass.old) (B.sight pass.new) }
    ensures job { HasJob (B.sight pass.new).number result (B.sight pass.new).seen.order }
    ensures fresh { (j : ℕ) → HasJob (B.sight pass.old).number j (B.sight pass.old).seen.order
        → j ≢ result }
    ensures keeps { KeepsJobs (B.sight pass.old) (B.sight pass.new) }
{
    let (job, found) = message(rt, board, pass);
    assert!(rt; found == wanted);
    job
}

// What a take that gives no message returns.
#[derive(Clone, Copy, PartialEq, Eq)]
pub(crate) enum Answer {
    Empty,
    Closed,
    Aborted,
    Spent,
}

fn found<R: Wait + Abort, B: Letters>(rt: &R, board: &B, pass: &mut B::Pass) -> Answer
    requires { (B.sight pass.old).board ≡ B.identity board.now }
    ensures pass { IsSame (B.sight pass.old) (B.sight pass.new) }
    ensures keeps { KeepsJobs (B.sight pass.old) (B.sight pass.new) }
{
    match Board::take(board, rt, pass) {
        Ok(Taken::Message(_job, _)) => panic!(rt; "a message"),
        Ok(Taken::Empty) => Answer::Empty,
        Ok(Taken::Closed) => Answer::Closed,
        Ok(Taken::Aborted) => Answer::Aborted,
        Err(Spent) => Answer::Spent,
    }
}

// Takes no message: this must be the result.
pub(crate) fn finds<R: Wait + Abort, B: Letters>(
    rt: &R,
    board: &B,
    pass: &mut B::Pass,
    wanted: Answer,
)
    requires { (B.sight pass.old).board ≡ B.identity board.now }
    ensures pass { IsSame (B.sight pass.old) (B.sight pass.new) }
    ensures keeps { KeepsJobs (B.sight pass.old) (B.sight pass.new) }
{
    assert!(rt; found(rt, board, pass) == wanted);
}

// Completes the message of a job, which must not be refused.
pub(crate) fn done<R: Wait + Abort, B: Letters>(rt: &R, board: &B, pass: &mut B::Pass, job: Job)
    requires board { (B.sight pass.old).board ≡ B.identity board.now }
    requires job { HasJob (B.sight pass.old).number job (B.sight pass.old).seen.order }
    ensures pass { IsSame (B.sight pass.old) (B.sight pass.new) }
    ensures keeps { (j : ℕ) → j ≢ job
        → HasJob (B.sight pass.old).number j (B.sight pass.old).seen.order
        → HasJob (B.sight pass.new).number j (B.sight pass.new).seen.order }
{
    match Board::done(board, rt, pass, job) {
        Ok(()) => {}
        Err((_job, _)) => panic!(rt; "spent"),
    }
}

// Completes the message of a job and takes the next one, which must be this one.
fn turns<R: Wait + Abort, B: Letters>(
    rt: &R,
    board: &B,
    pass: &mut B::Pass,
    job: Job,
    wanted: u32,
) -> Job
    requires board { (B.sight pass.old).board ≡ B.identity board.now }
    requires job { HasJob (B.sight pass.old).number job (B.sight pass.old).seen.order }
    ensures pass { IsSame (B.sight pass.old) (B.sight pass.new) }
    ensures job { HasJob (B.sight pass.new).number result (B.sight pass.new).seen.order }
{
    match Board::turn(board, rt, pass, job) {
        Ok(Taken::Message(next, letter)) => {
            assert!(rt; letter.0 == wanted);
            next
        }
        Ok(Taken::Empty) | Ok(Taken::Closed) | Ok(Taken::Aborted) => panic!(rt; "no message"),
        Err((_job, Spent)) => panic!(rt; "spent"),
    }
}

// Completes the message of a job: this must be what the take of the next one returns.
fn turns_to<R: Wait + Abort, B: Letters>(
    rt: &R,
    board: &B,
    pass: &mut B::Pass,
    job: Job,
    wanted: Answer,
)
    requires board { (B.sight pass.old).board ≡ B.identity board.now }
    requires job { HasJob (B.sight pass.old).number job (B.sight pass.old).seen.order }
    ensures { IsSame (B.sight pass.old) (B.sight pass.new) }
{
    let found = match Board::turn(board, rt, pass, job) {
        Ok(Taken::Message(_job, _)) => panic!(rt; "a message"),
        Ok(Taken::Empty) => Answer::Empty,
        Ok(Taken::Closed) => Answer::Closed,
        Ok(Taken::Aborted) => Answer::Aborted,
        Err((None, Spent)) => Answer::Spent,
        Err((Some(_job), Spent)) => panic!(rt; "not completed"),
    };
    assert!(rt; found == wanted);
}

pub(crate) fn post<R: Wait, B: Letters>(
    rt: &R,
    board: &B,
    pass: &mut B::Pass,
    job: &Job,
    to: u8,
    message: u32,
) -> Result<(), PostFault<Letter>>
    requires board { (B.sight pass.old).board ≡ B.identity board.now }
    requires job { HasJob (B.sight pass.old).number job.now (B.sight pass.old).seen.order }
    requires to { to < (B.sight pass.old).seen.boxes }
    ensures pass { IsSame (B.sight pass.old) (B.sight pass.new) }
    ensures keeps { KeepsJobs (B.sight pass.old) (B.sight pass.new) }
{
    Board::post(board, rt, pass, job, to, Letter(message))
}

// What the first pass had seen, for the second.
fn tells<B: Letters>(board: &B, first: &mut B::Pass, second: &mut B::Pass)
    requires first { (B.sight first.old).board ≡ B.identity board.now }
    requires second { (B.sight second.old).board ≡ B.identity board.now }
    ensures first { B.sight first.new ≡ B.sight first.old }
    ensures second { IsSame (B.sight second.old) (B.sight second.new) }
{
    let told = Board::tell(board, first);
    Board::learn(board, second, told);
}

// Appends a pass to those with lower numbers.
pub(crate) fn gather<R: Abort, B: Letters>(
    rt: &R,
    board: &B,
    passes: &mut Vec<B::Pass, B::Heap>,
    pass: B::Pass,
)
where
    B::Pass: Drop,
    requires passes { AreFirst (B.identity board.now) (B.mailboxes board.now)
        (map B.sight passes.old.items) }
    requires pass { ((B.sight pass).board ≡ B.identity board.now)
        × ((B.sight pass).number ≡ vec_len passes.old)
        × ((B.sight pass).seen.boxes ≡ B.mailboxes board.now) }
    ensures { AreFirst (B.identity board.now) (B.mailboxes board.now) (map B.sight passes.new.items)
        × (vec_len passes.new ≡ vec_len passes.old + 1) }
{
    match passes.push(pass) {
        Ok(()) => {}
        Err(_) => panic!(rt; "no memory"),
    }
}

pub(crate) fn settle<B: Letters>(
    board: B,
    mut passes: Vec<B::Pass, B::Heap>,
) -> Ledger<Letter, B::Heap>
    requires { AreFirst (B.identity board) (B.mailboxes board) (map B.sight passes.items)
        × (vec_len passes ≡ B.mailboxes board) }
{
    let ledger = Board::into_ledger(board, &mut passes);
    passes.destroy_empty();
    ledger
}

// A board with the opening post 10 in mailbox 0, and its pass.
fn alone<R: Abort, B: Letters>(rt: &R, alloc: B::Heap) -> (B, B::Pass)
where
    B::Heap: Clone,
    B::Pass: Drop,
    ensures { ((B.sight result.1).board ≡ B.identity result.0) × ((B.sight result.1).number ≡ 0)
        × (B.mailboxes result.0 ≡ 1) × ((B.sight result.1).seen.boxes ≡ 1) }
{
    let Ok((board, mut passes)) = B::open(alloc, &(), 1, 0, Letter(10)) else {
        panic!(rt; "no memory")
    };
    let Some(pass) = passes.pop() else {
        panic!(rt; "no pass")
    };
    (board, pass)
}

// A board of two mailboxes, with the opening post 10 in mailbox 0, and its passes.
pub(crate) fn two<R: Abort, B: Letters>(
    rt: &R,
    alloc: B::Heap,
    budget: u64,
) -> (B, B::Pass, B::Pass)
where
    B::Heap: Clone,
    B::Pass: Drop,
    requires { (2 ≤ budget) × (budget ≤ 1000) }
    ensures board { B.mailboxes result.0 ≡ 2 }
    ensures zero { ((B.sight result.1).board ≡ B.identity result.0)
        × ((B.sight result.1).number ≡ 0)
        × ((B.sight result.1).seen.boxes ≡ 2) }
    ensures one { ((B.sight result.2).board ≡ B.identity result.0) × ((B.sight result.2).number ≡ 1)
        × ((B.sight result.2).seen.boxes ≡ 2) }
{
    let Ok((board, mut passes)) = B::open_with_budget(alloc, &(), 2, 0, Letter(10), budget) else {
        panic!(rt; "no memory")
    };
    let Some(one) = passes.pop() else {
        panic!(rt; "no pass")
    };
    let Some(zero) = passes.pop() else {
        panic!(rt; "no pass")
    };
    (board, zero, one)
}

// How many Posts, Takes and Dones the histories have.
fn counts<A: Allocator>(histories: &[Mailbox<Letter, A>]) -> (u64, u64, u64) {
    let mut posts = 0u64;
    let mut takes = 0u64;
    let mut dones = 0u64;
    for mailbox in histories {
        for number in 0..mailbox.len() {
            match mailbox.event(number) {
                Some(Event::Post { .. }) => posts = posts.wrapping_add(1),
                Some(Event::Take { .. }) => takes = takes.wrapping_add(1),
                Some(Event::Done { .. }) => dones = dones.wrapping_add(1),
                None => {}
            }
        }
    }
    (posts, takes, dones)
}

// Takes 10, and posts 11 and 12 under its job.
fn posts_two<R: Wait + Abort, B: Letters>(rt: &R, board: &B, zero: &mut B::Pass) -> Job
    requires { ((B.sight zero.old).board ≡ B.identity board.now)
        × (1 < (B.sight zero.old).seen.boxes) }
    ensures pass { IsSame (B.sight zero.old) (B.sight zero.new) }
    ensures job { HasJob (B.sight zero.new).number result (B.sight zero.new).seen.order }
{
    let job = takes(rt, board, zero, 10);
    assert!(rt; post(rt, board, zero, &job, 1, 11).is_ok());
    assert!(rt; post(rt, board, zero, &job, 1, 12).is_ok());
    job
}

// The ledger of a board whose passes are these two.
fn settle_two<R: Abort, B: Letters>(
    rt: &R,
    alloc: B::Heap,
    board: B,
    zero: B::Pass,
    one: B::Pass,
) -> Ledger<Letter, B::Heap>
where
    B::Pass: Drop,
    requires board { B.mailboxes board ≡ 2 }
    requires zero { ((B.sight zero).board ≡ B.identity board) × ((B.sight zero).number ≡ 0)
        × ((B.sight zero).seen.boxes ≡ 2) }
    requires one { ((B.sight one).board ≡ B.identity board) × ((B.sight one).number ≡ 1)
        × ((B.sight one).seen.boxes ≡ 2) }
{
    let mut passes = Vec::new(alloc);
    gather(rt, &board, &mut passes, zero);
    gather(rt, &board, &mut passes, one);
    settle(board, passes)
}

// Takes 10 and completes it: before that the mailbox is empty, and then closed.
fn serves_one<R: Wait + Abort, B: Letters>(rt: &R, board: &B, pass: &mut B::Pass)
    requires { (B.sight pass.old).board ≡ B.identity board.now }
    ensures { IsSame (B.sight pass.old) (B.sight pass.new) }
{
    let job = takes(rt, board, pass, 10);
    finds(rt, board, pass, Answer::Empty);
    done(rt, board, pass, job);
    finds(rt, board, pass, Answer::Closed);
}

// The ledger of a board of one mailbox that served one message.
fn ledger_of_one<R: Wait + Abort, B: Letters>(
    rt: &R,
    alloc: B::Heap,
    more: B::Heap,
) -> Ledger<Letter, B::Heap>
where
    B::Heap: Clone,
    B::Pass: Drop,
{
    let (board, mut pass) = alone::<R, B>(rt, alloc);
    serves_one(rt, &board, &mut pass);
    let mut passes = Vec::new(more);
    gather(rt, &board, &mut passes, pass);
    settle(board, passes)
}

// The ledger is closed, and has this history.
fn has_closed<R: Abort, A: Allocator>(
    rt: &R,
    ledger: &Ledger<Letter, A>,
    history: &[Event<Letter>],
) {
    assert!(rt; ledger.closed);
    for mailbox in &ledger.histories {
        assert!(rt; is_history(mailbox, history));
    }
}

// One message in one mailbox, with its history.
fn closes_alone<R: Wait + Abort, B: Letters>(rt: &R, alloc: B::Heap, more: B::Heap)
where
    B::Heap: Clone,
    B::Pass: Drop,
{
    let history = [
        Event::Post {
            sender: 1,
            message: Letter(10),
        },
        Event::Take {
            sender: 1,
            message: Letter(10),
        },
        Event::Done { take: 0 },
    ];
    let ledger = ledger_of_one::<R, B>(rt, alloc, more);
    has_closed(rt, &ledger, history.as_slice());
}

// The ledger of a board of two mailboxes whose passes go from message to message by turns.
fn ledger_of_turns<R: Wait + Abort, B: Letters>(
    rt: &R,
    alloc: B::Heap,
    more: B::Heap,
) -> Ledger<Letter, B::Heap>
where
    B::Heap: Clone,
    B::Pass: Drop,
{
    let (board, mut zero, mut one) = two::<R, B>(rt, alloc, 1000);
    let job = posts_two(rt, &board, &mut zero);
    tells(&board, &mut zero, &mut one);
    let second = takes(rt, &board, &mut one, 11);
    let third = turns(rt, &board, &mut one, second, 12);
    turns_to(rt, &board, &mut one, third, Answer::Empty);
    turns_to(rt, &board, &mut zero, job, Answer::Closed);
    finds(rt, &board, &mut one, Answer::Closed);
    settle_two(rt, more, board, zero, one)
}

// The history of a mailbox whose two messages were taken by turns.
const BY_TURNS: &[Event<Letter>] = &[
    Event::Post {
        sender: 0,
        message: Letter(11),
    },
    Event::Post {
        sender: 0,
        message: Letter(12),
    },
    Event::Take {
        sender: 0,
        message: Letter(11),
    },
    Event::Done { take: 0 },
    Event::Take {
        sender: 0,
        message: Letter(12),
    },
    Event::Done { take: 1 },
];

// Each turn completes its message before it takes the next one.
fn turns_in_order<R: Wait + Abort, B: Letters>(rt: &R, alloc: B::Heap, more: B::Heap)
where
    B::Heap: Clone,
    B::Pass: Drop,
{
    let ledger = ledger_of_turns::<R, B>(rt, alloc, more);
    assert!(rt; ledger.closed);
    assert!(rt; counts(ledger.histories.as_slice()) == (3, 3, 3));
    match ledger.histories.get(1) {
        Some(mailbox) => assert!(rt; is_history(mailbox, BY_TURNS)),
        None => panic!(rt; "no mailbox 1"),
    }
}

// With one call, which takes the message, a turn hands the job back.
fn turn_is_spent<R: Wait + Abort, B: Letters + Drop>(rt: &R, alloc: B::Heap)
where
    B::Heap: Clone,
    B::Pass: Drop,
{
    let (board, mut zero, _one) = two::<R, B>(rt, alloc, 2);
    let job = takes(rt, &board, &mut zero, 10);
    match Board::turn(&board, rt, &mut zero, job) {
        Err((Some(job), Spent)) => {
            Board::abort(&board, rt, &mut zero, Some(job), Cause::Spent);
        }
        Err((None, Spent)) => panic!(rt; "completed"),
        Ok(_taken) => panic!(rt; "taken"),
    }
}

// A turn after the take finds this, with a budget that is one more than the calls of a pass.
fn turn_ends<R: Wait + Abort, B: Letters + Drop>(
    rt: &R,
    alloc: B::Heap,
    budget: u64,
    wanted: Answer,
)
where
    B::Heap: Clone,
    B::Pass: Drop,
    requires { (2 ≤ budget) × (budget ≤ 1000) }
{
    let (board, mut zero, _one) = two::<R, B>(rt, alloc, budget);
    let job = takes(rt, &board, &mut zero, 10);
    turns_to(rt, &board, &mut zero, job, wanted);
}

// A turn completes the message of an aborted board, and takes none, though one waits.
fn turns_after_an_abort<R: Wait + Abort, B: Letters + Drop>(rt: &R, alloc: B::Heap)
where
    B::Heap: Clone,
    B::Pass: Drop,
{
    let (board, mut zero, mut one) = two::<R, B>(rt, alloc, 1000);
    let job = takes(rt, &board, &mut zero, 10);
    assert!(rt; post(rt, &board, &mut zero, &job, 0, 11).is_ok());
    Board::abort(&board, rt, &mut one, None, Cause::NoWorker);
    turns_to(rt, &board, &mut zero, job, Answer::Aborted);
    finds(rt, &board, &mut zero, Answer::Aborted);
}

// All rows of one kind of board.
fn keeps_the_rows<R: Wait + Abort, B: Letters + Drop>(rt: &R, alloc: B::Heap)
where
    B::Heap: Copy,
    B::Pass: Drop,
{
    closes_alone::<R, B>(rt, alloc, alloc);
    turns_in_order::<R, B>(rt, alloc, alloc);
    turn_is_spent::<R, B>(rt, alloc);
    // With two calls a turn completes the message, with three it finds the close.
    turn_ends::<R, B>(rt, alloc, 3, Answer::Spent);
    turn_ends::<R, B>(rt, alloc, 4, Answer::Closed);
    turns_after_an_abort::<R, B>(rt, alloc);
}

#[test]
fn behind_one_lock(rt: HostRuntime) {
    keeps_the_rows::<_, OneLock<Letter, (), Global>>(&rt, rt.alloc());
}

#[test]
fn behind_a_lock_for_each(rt: HostRuntime) {
    keeps_the_rows::<_, LockPerBox<Letter, (), Global>>(&rt, rt.alloc());
}
