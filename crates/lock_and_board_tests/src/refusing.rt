//! Rows of the allocator that refuses, worked out by hand.

use scarce::Scarce;
use std::alloc::{AllocError, Allocator, Global};
use std::process::Abort;
use std::thread;

/// Pushes the numbers below 100, each one again if it was refused; returns how many were refused, and the growth
/// before the last refusal.
fn pushes<A: Allocator>(numbers: &mut Vec<u64, A>) -> Result<(u64, u64), AllocError> {
    let (mut refusals, mut growths, mut at) = (0u64, 0u64, 0u64);
    for n in 0..100u64 {
        let capacity = numbers.capacity();
        if numbers.push(n).is_err() {
            refusals = refusals.wrapping_add(1);
            at = growths;
            numbers.push(n)?;
        }
        if numbers.capacity() > capacity {
            growths = growths.wrapping_add(1);
        }
    }
    Ok((refusals, at))
}

/// The same for an empty list; `None` if a number was refused twice, or the numbers are not there.
fn pushed<A: Allocator>(mut numbers: Vec<u64, A>) -> Option<(u64, u64)> {
    match pushes(&mut numbers) {
        Ok(counts) if numbers.iter().copied().eq(0..100u64) => Some(counts),
        _ => None,
    }
}

/// The number of refusals and, before the last one, of growths; the numbers are there, and no block is left once
/// they are dropped.
fn refuses<R: Abort, A: Allocator>(rt: &R, alloc: A, nth: u64, wanted: (u64, u64)) {
    let scarce = Scarce::refusing(alloc, nth);
    let numbers = Vec::new(&scarce);
    assert!(rt; !scarce.refused());
    assert!(rt; pushed(numbers) == Some(wanted));
    assert!(rt; scarce.refused() == (wanted.0 > 0) && scarce.live() == 0);
}

#[test]
fn refuses_one_growth(rt: HostRuntime) {
    for nth in 1..4u64 {
        refuses(&rt, rt.alloc(), nth, (1, nth - 1));
    }
}

#[test]
fn refuses_none_at_zero(rt: HostRuntime) {
    refuses(&rt, rt.alloc(), 0, (0, 0));
    has_one_block(&rt, rt.alloc());
}

/// Whether room for so many bytes is refused, and then, with one byte there, room for so many more.
fn refuses_room<A: Allocator + Copy>(alloc: A, size: usize) -> (bool, bool) {
    let first = Vec::<u8, A>::with_capacity(alloc, size).is_err();
    let mut bytes = Vec::new(alloc);
    let second = bytes.push(7u8).is_err() || bytes.reserve(size).is_err();
    (first, second)
}

#[test]
fn refuses_large_requests_too(rt: HostRuntime) {
    for size in &[1usize, 4_096, 65_536, 1_048_576, 16_777_216] {
        let scarce = Scarce::refusing(rt.alloc(), 1);
        assert!(rt; refuses_room(&scarce, *size) == (true, false));
        // The second request is for the byte, and the third for the growth.
        let scarce = Scarce::refusing(rt.alloc(), 3);
        assert!(rt; refuses_room(&scarce, size + 8) == (false, true));
    }
}

/// Whether one more box is refused.
fn refuses_a_box<A: Allocator>(alloc: A) -> bool {
    Box::new(alloc, 3u8).is_err()
}

fn two_boxes<A: Allocator + Copy>(alloc: A) -> Result<(Box<u8, A>, Box<u8, A>), AllocError> {
    Ok((Box::new(alloc, 1u8)?, Box::new(alloc, 2u8)?))
}

/// Whether there are two boxes, with what was put in.
fn are_there<A: Allocator>(boxes: Result<(Box<u8, A>, Box<u8, A>), AllocError>) -> bool {
    match boxes {
        Ok((first, second)) => *first == 1 && *second == 2,
        Err(AllocError) => false,
    }
}

/// Two boxes stay while each of three more is refused.
fn keeps_two<R: Abort, A: Allocator>(rt: &R, scarce: &Scarce<A>) {
    let boxes = two_boxes(scarce);
    assert!(rt; !scarce.refused());
    for _ in 0..3u64 {
        assert!(rt; refuses_a_box(scarce) && scarce.refused());
    }
    assert!(rt; scarce.live() == 2);
    assert!(rt; are_there(boxes));
}

fn refuses_the_rest<R: Abort, A: Allocator>(rt: &R, alloc: A) {
    let inner = Scarce::refusing(alloc, 0);
    let scarce = Scarce::refusing_from(&inner, 3);
    keeps_two(rt, &scarce);
    assert!(rt; scarce.asked() == 5 && inner.asked() == 2);
    assert!(rt; scarce.live() == 0 && inner.live() == 0);
}

/// A list grows in one block.
fn has_one_block<R: Abort, A: Allocator>(rt: &R, alloc: A) {
    let scarce = Scarce::refusing(alloc, 0);
    let mut numbers = Vec::new(&scarce);
    assert!(rt; scarce.live() == 0);
    assert!(rt; pushes(&mut numbers) == Ok((0, 0)));
    assert!(rt; scarce.live() == 1 && scarce.asked() > 1);
    drop(numbers);
    assert!(rt; scarce.live() == 0);
}

fn refuses_each<R: Abort, A: Allocator>(rt: &R, alloc: A) {
    let none = Scarce::refusing_from(alloc, 0);
    assert!(rt; !none.refused());
    assert!(rt; refuses_a_box(&none) && none.refused());
}

#[test]
fn refuses_from_the_third_on(rt: HostRuntime) {
    refuses_the_rest(&rt, rt.alloc());
    refuses_each(&rt, rt.alloc());
}

/// Code as other crates write it: it allocates with its runtime's own allocator.
fn two_texts<R: Alloc>(rt: &R) -> Result<(String<R::A>, String<R::A>), AllocError> {
    Ok((
        String::from_str(rt.alloc(), "first")?,
        String::from_str(rt.alloc(), "second")?,
    ))
}

/// Whether the texts are these.
fn has_two_texts<R: Alloc>(rt: &R) -> Result<bool, AllocError> {
    match two_texts(rt) {
        Ok((first, second)) => Ok(first.as_str() == "first" && second.as_str() == "second"),
        Err(refused) => Err(refused),
    }
}

/// One of the texts is refused, and then none.
fn refuses_a_text<R: Abort, A: Allocator>(rt: &R, scarce: &Scarce<A>, nth: u64) {
    let with_it = (rt, scarce);
    assert!(rt; has_two_texts(&with_it).is_err());
    assert!(rt; scarce.asked() == nth);
    assert!(rt; has_two_texts(&with_it) == Ok(true));
    assert!(rt; scarce.asked() == nth.wrapping_add(2));
}

#[test]
fn stands_in_a_pair_with_the_runtime(rt: HostRuntime) {
    for nth in 1..3u64 {
        let scarce = Scarce::refusing(rt.alloc(), nth);
        refuses_a_text(&rt, &scarce, nth);
    }
}

/// How many of ten boxes were refused.
fn refused_boxes(scarce: &Scarce<Global>) -> u64 {
    let mut refused = 0u64;
    for _ in 0..10u64 {
        if refuses_a_box(scarce) {
            refused = refused.wrapping_add(1);
        }
    }
    refused
}

/// The length of a list, if there was memory for it.
fn length_of<A: Allocator>(made: Result<Vec<u8, A>, AllocError>) -> Option<usize> {
    match made {
        Ok(list) => Some(list.len()),
        Err(AllocError) => None,
    }
}

#[test]
fn is_shared_by_threads(rt: HostRuntime) {
    let scarce = Scarce::refusing(rt.alloc(), 7);
    let (here, there) = thread::join(&rt, || refused_boxes(&scarce), || refused_boxes(&scarce));
    assert!(rt; here.wrapping_add(there) == 1 && scarce.asked() == 20);
    let (made, kept) = thread::join(&rt, || Vec::from_elem(&scarce, 5u8, 3), || 1u8);
    assert!(rt; length_of(made) == Some(3) && kept == 1);
}
