//! Two posts at once with a lock for each mailbox: to two mailboxes, and to one.
ghost use Rattle.std.specs.Prelude.{◌≡◌, ◌<◌};
ghost use Rattle.post_ledger.specs.Orders.{HasJob};

use crate::boards::{Letter, Letters, done, post, takes, two};
use std::alloc::Global;
use std::process::Abort;
use std::sync::Wait;
use std::sync::atomic::Ordering::SeqCst;
use std::sync::atomic::{AtomicBool, AtomicU32};
use std::thread;
use std::thread::{Threads, join};
use switchboard::{BoxPass, Job, LockPerBox};

type Boxes = LockPerBox<Letter, (), Global>;

type Pass = BoxPass<Letter, (), Global>;

// How many turns a thread waits for the other, at most.
const TURNS: u32 = 10_000_000;

// How many turns a thread waits for what must not come.
const FEW_TURNS: u32 = 100_000;

// Waits until the flag is raised, and yields between two turns. Returns whether it was.
fn raised(flag: &AtomicBool, turns: u32) -> bool {
    for _turn in 0..turns {
        if flag.load(SeqCst) {
            return true;
        }
        thread::yield_now();
    }
    false
}

// What the two threads tell each other: that the first is inside, how often it came there, that the second's post has
// returned, and whether that was while the first was inside.
#[derive(Drop)]
struct Flags {
    begun: AtomicBool,
    calls: AtomicU32,
    answered: AtomicBool,
    answered_inside: AtomicBool,
}

// The mailbox of the second post, and how many turns the first waits inside for its end.
#[derive(Clone, Copy)]
struct Meeting {
    to: u8,
    turns: u32,
}

// Posts 12 to mailbox 0, and waits inside for the other's post.
fn first<R: Wait + Abort>(
    rt: &R,
    board: &Boxes,
    mut pass: Pass,
    job: &Job,
    flags: &Flags,
    meeting: Meeting,
) -> (Pass, bool)
    requires board { pass.board ≡ board.now.table.shared.table_id }
    requires job { HasJob pass.number job.now pass.seen.order }
    requires boxes { 0 < pass.seen.boxes }
    ensures pass { (result.0.board ≡ pass.board)
        × HasJob result.0.number job.now result.0.seen.order }
{
    let answer = board.post_held(
        rt,
        &mut pass,
        job,
        0,
        Letter(12),
        &|| {
            flags.calls.fetch_add(1, SeqCst);
            flags.begun.store(true, SeqCst);
            if raised(&flags.answered, meeting.turns) {
                flags.answered_inside.store(true, SeqCst);
            }
        },
    );
    (pass, answer.is_ok())
}

// Posts 13, once the other is inside.
fn second<R: Wait + Abort, B: Letters>(
    rt: &R,
    board: &B,
    mut pass: B::Pass,
    job: &Job,
    flags: &Flags,
    to: u8,
) -> (B::Pass, bool)
where
    B::Pass: Drop,
    requires board { (B.sight pass).board ≡ B.identity board.now }
    requires job { HasJob (B.sight pass).number job.now (B.sight pass).seen.order }
    requires boxes { to < (B.sight pass).seen.boxes }
    ensures pass { ((B.sight result.0).board ≡ (B.sight pass).board)
        × HasJob (B.sight result.0).number job.now (B.sight result.0).seen.order }
{
    let begun = raised(&flags.begun, TURNS);
    let answer = post(rt, board, &mut pass, job, to, 13);
    flags.answered.store(true, SeqCst);
    (pass, begun && answer.is_ok())
}

// Both posts, on two threads.
fn both<R: Threads + Wait + Abort + Sync>(
    rt: &R,
    board: &Boxes,
    zero: (Pass, &Job),
    one: (Pass, &Job),
    flags: &Flags,
    meeting: Meeting,
) -> ((Pass, bool), (Pass, bool))
    requires zero { (zero.0.board ≡ board.now.table.shared.table_id) × (0 < zero.0.seen.boxes)
        × HasJob zero.0.number zero.1.now zero.0.seen.order }
    requires one { (one.0.board ≡ board.now.table.shared.table_id) × (meeting.to < one.0.seen.boxes)
        × HasJob one.0.number one.1.now one.0.seen.order }
    ensures zero { (result.0.0.board ≡ board.now.table.shared.table_id)
        × HasJob result.0.0.number zero.entry.1.now result.0.0.seen.order }
    ensures one { (result.1.0.board ≡ board.now.table.shared.table_id)
        × HasJob result.1.0.number one.entry.1.now result.1.0.seen.order }
{
    let (zero, zero_job) = zero;
    let (one, one_job) = one;
    join(
        rt,
        move || first(rt, board, zero, zero_job, flags, meeting),
        move || second(rt, board, one, one_job, flags, meeting.to),
    )
}

// A board of two mailboxes, and its passes, each with the job of a message that it took.
fn begun<R: Wait + Abort, B: Letters>(rt: &R, alloc: B::Heap) -> (B, (B::Pass, Job), (B::Pass, Job))
where
    B::Heap: Clone,
    B::Pass: Drop,
    ensures zero { ((B.sight result.1.0).board ≡ B.identity result.0)
        × ((B.sight result.1.0).seen.boxes ≡ 2)
        × HasJob (B.sight result.1.0).number result.1.1 (B.sight result.1.0).seen.order }
    ensures one { ((B.sight result.2.0).board ≡ B.identity result.0)
        × ((B.sight result.2.0).seen.boxes ≡ 2)
        × HasJob (B.sight result.2.0).number result.2.1 (B.sight result.2.0).seen.order }
{
    let (board, mut zero, mut one) = two::<R, B>(rt, alloc, 1000);
    let zero_job = takes(rt, &board, &mut zero, 10);
    assert!(rt; post(rt, &board, &mut zero, &zero_job, 1, 11).is_ok());
    let one_job = takes(rt, &board, &mut one, 11);
    (board, (zero, zero_job), (one, one_job))
}

// Completes the message of each pass.
fn ends<R: Wait + Abort, B: Letters>(rt: &R, board: &B, zero: (B::Pass, Job), one: (B::Pass, Job))
where
    B::Pass: Drop,
    requires zero { ((B.sight zero.0).board ≡ B.identity board.now)
        × HasJob (B.sight zero.0).number zero.1 (B.sight zero.0).seen.order }
    requires one { ((B.sight one.0).board ≡ B.identity board.now)
        × HasJob (B.sight one.0).number one.1 (B.sight one.0).seen.order }
{
    let (mut pass, job) = zero;
    done(rt, board, &mut pass, job);
    let (mut pass, job) = one;
    done(rt, board, &mut pass, job);
}

// Whether the second post returned while the first was inside, where both were made and the first was inside once.
fn returned_inside<R: Threads + Wait + Abort + Sync + AllocGlobal>(rt: &R, meeting: Meeting) -> bool
    requires { meeting.to < 2 }
{
    let (board, (zero, zero_job), (one, one_job)) = begun::<_, Boxes>(rt, rt.alloc());
    let flags = Flags {
        begun: AtomicBool::new(false),
        calls: AtomicU32::new(0),
        answered: AtomicBool::new(false),
        answered_inside: AtomicBool::new(false),
    };
    let ((zero, zero_posted), (one, one_posted)) = both(
        rt,
        &board,
        (zero, &zero_job),
        (one, &one_job),
        &flags,
        meeting,
    );
    ends(rt, &board, (zero, zero_job), (one, one_job));
    assert!(rt; zero_posted && one_posted);
    assert!(rt; flags.calls.load(SeqCst) == 1);
    flags.answered_inside.load(SeqCst)
}

#[test]
fn two_posts_at_once(rt: HostRuntime) {
    let meeting = Meeting {
        to: 1,
        turns: TURNS,
    };
    assert!(rt; returned_inside(&rt, meeting));
}

#[test]
fn a_post_waits_for_the_lock_of_its_mailbox(rt: HostRuntime) {
    let meeting = Meeting {
        to: 0,
        turns: FEW_TURNS,
    };
    assert!(rt; !returned_inside(&rt, meeting));
}
