//! Rows of mailboxes, worked out by hand.
ghost use Rattle.std.specs.Prelude.{◌≡◌, ◌++◌, ◌∷◌, []};
ghost use Rattle.post_ledger.specs.History.{TakesOldest};
ghost use Rattle.post_ledger.specs.declared.event.Event.TheVariants.{Post};

use post_ledger::{Event, Mailbox, Side, by_sender, legal};
use scarce::Scarce;
use std::alloc::{AllocError, Allocator};
use std::process::Abort;

fn post(sender: u8, message: u8) -> Event<u8> {
    Event::Post { sender, message }
}

fn take(sender: u8, message: u8) -> Event<u8> {
    Event::Take { sender, message }
}

fn done(take: u64) -> Event<u8> {
    Event::Done { take }
}

// Posts a message, which must not be refused.
fn posts<R: Abort, A: Allocator>(rt: &R, mailbox: &mut Mailbox<u8, A>, sender: u8, message: u8)
    ensures { mailbox.new ≡ mailbox.old ++ Post sender message ∷ [] }
{
    let answer = mailbox.post(sender, message);
    assert!(rt; answer.is_ok());
}

// Takes the message, which must be this one with this number.
fn takes<R: Abort, A: Allocator>(rt: &R, mailbox: &mut Mailbox<u8, A>, number: u64, message: u8)
    ensures { TakesOldest mailbox.old mailbox.new message }
{
    let answer = mailbox.take();
    assert!(rt; answer == Some((number, message)));
}

// Whether these are the events of a mailbox, one by one.
pub(crate) fn is_history<M: Copy + Eq, A: Allocator>(
    mailbox: &Mailbox<M, A>,
    wanted: &[Event<M>],
) -> bool {
    mailbox.history().eq(wanted.iter().copied())
}

// The whole history must be this, and legal.
fn has<R: Abort, A: Allocator>(rt: &R, mailbox: &Mailbox<u8, A>, wanted: &[Event<u8>]) {
    assert!(rt; is_history(mailbox, wanted) && legal(wanted));
}

fn one_message<R: Abort, A: Allocator + Copy>(rt: &R, alloc: A) {
    let mut mailbox = Mailbox::new(alloc, alloc);
    posts(rt, &mut mailbox, 0, 5);
    takes(rt, &mut mailbox, 0, 5);
    assert!(rt; mailbox.take().is_none());
    mailbox.done(0);
    has(rt, &mailbox, &[post(0, 5), take(0, 5), done(0)]);
}

#[test]
fn one_message_is_posted_taken_and_completed(rt: HostRuntime) {
    one_message(&rt, rt.alloc());
}

// Whether these are the messages of sender 0 at a side.
fn has_at_side<A: Allocator>(alloc: A, history: &[Event<u8>], side: Side, wanted: &[u8]) -> bool {
    match by_sender(alloc, history, 0, side) {
        Ok(messages) => messages.as_slice() == wanted,
        Err(AllocError) => false,
    }
}

fn two_senders<R: Abort, A: Allocator + Copy>(rt: &R, alloc: A) -> Mailbox<u8, A> {
    let mut mailbox = Mailbox::new(alloc, alloc);
    posts(rt, &mut mailbox, 0, 5);
    posts(rt, &mut mailbox, 1, 7);
    posts(rt, &mut mailbox, 0, 6);
    takes(rt, &mut mailbox, 0, 5);
    takes(rt, &mut mailbox, 1, 7);
    mailbox.done(1);
    mailbox
}

#[test]
fn each_sender_has_its_messages_in_order(rt: HostRuntime) {
    let mailbox = two_senders(&rt, rt.alloc());
    let first = [
        post(0, 5),
        post(1, 7),
        post(0, 6),
        take(0, 5),
        take(1, 7),
        done(1),
    ];
    has(&rt, &mailbox, &first);
    let done_of_none = [
        post(0, 5),
        post(1, 7),
        post(0, 6),
        take(0, 5),
        take(1, 7),
        done(2),
    ];
    assert!(rt; !legal(done_of_none.as_slice()));
    let Ok(history) = mailbox.history().collect::<Vec<Event<u8>>>(rt.alloc()) else {
        panic!(rt; "no memory")
    };
    assert!(rt; history.as_slice() == first.as_slice());
    assert!(rt; has_at_side(rt.alloc(), history.as_slice(), Side::Posts, &[5, 6]));
    assert!(rt; has_at_side(rt.alloc(), history.as_slice(), Side::Takes, &[5]));
}

// Posts the message with this number, and again if it was refused: it then comes back, and nothing is recorded.
fn posts_again<R: Abort, A: Allocator>(rt: &R, mailbox: &mut Mailbox<u8, A>, number: u8) {
    if let Err(back) = mailbox.post(0, number) {
        assert!(rt; back == number && mailbox.len() == usize::from(number));
        assert!(rt; mailbox.post(0, back).is_ok());
    }
}

// Posts the messages below ten, and takes them and reads the history, which requests no allocation.
fn serves_ten<R: Abort, H: Allocator, A: Allocator>(
    rt: &R,
    scarce: &Scarce<H>,
    mailbox: &mut Mailbox<u8, A>,
) {
    for n in 0..10u8 {
        posts_again(rt, mailbox, n);
    }
    let asked = scarce.asked();
    for n in 0..10u8 {
        takes(rt, mailbox, u64::from(n), n);
    }
    assert!(rt; mailbox.history().all(|event| event != done(0)));
    assert!(rt; scarce.asked() == asked);
}

// How many messages of sender 0 were taken, if there is memory for the history and for their list.
fn count_taken<A: Allocator + Copy, H: Allocator>(
    alloc: A,
    mailbox: &Mailbox<u8, H>,
) -> Option<usize> {
    let history: Vec<Event<u8>, A> = mailbox.history().collect(alloc).ok()?;
    match by_sender(alloc, history.as_slice(), 0, Side::Takes) {
        Ok(taken) => Some(taken.len()),
        Err(AllocError) => None,
    }
}

// Whether the allocation with this number was refused to the history, or to the list of the messages taken.
fn list_was_refused<R: Abort, A: Allocator, H: Allocator>(
    rt: &R,
    host: A,
    mailbox: &Mailbox<u8, H>,
    nth: u64,
) -> bool {
    let few = Scarce::refusing(host, nth);
    let count = count_taken(&few, mailbox);
    assert!(rt; count == Some(10) || few.refused() && count.is_none());
    few.refused()
}

// Whether the allocation with this number was refused to a mailbox of ten messages, or to their list.
fn was_refused<R: Abort, A: Allocator>(rt: &R, host: A, other: A, nth: u64) -> bool {
    let scarce = Scarce::refusing(host, nth);
    let mut mailbox = Mailbox::new(&scarce, &scarce);
    serves_ten(rt, &scarce, &mut mailbox);
    let list = list_was_refused(rt, other, &mailbox, nth);
    scarce.refused() || list
}

#[test]
fn a_refused_post_changes_nothing(rt: HostRuntime) {
    for nth in 1..20u64 {
        if !was_refused(&rt, rt.alloc(), rt.alloc(), nth) {
            return;
        }
    }
    panic!(&rt; "refused without end")
}

#[test]
fn what_is_out_of_order_is_not_legal(rt: HostRuntime) {
    let before = [take(0, 5), post(0, 5)];
    assert!(rt; !legal(before.as_slice()), "taken before it is posted");
    let newest = [post(0, 5), post(0, 6), take(0, 6)];
    assert!(rt; !legal(newest.as_slice()), "the newest first");
    let again = [post(0, 5), take(0, 5), take(0, 5)];
    assert!(rt; !legal(again.as_slice()), "taken twice");
    let early = [post(0, 5), done(0)];
    assert!(rt; !legal(early.as_slice()), "completed before it is taken");
    let twice = [post(0, 5), take(0, 5), done(0), done(0)];
    assert!(rt; !legal(twice.as_slice()), "completed twice");
    let both = [
        post(0, 5),
        post(0, 6),
        take(0, 5),
        take(0, 6),
        done(1),
        done(0),
    ];
    assert!(rt; legal(both.as_slice()));
}
