//! How a thread sleeps while it waits for another.
use std::sync::Wait;
use std::sync::atomic::AtomicU64;
use std::time::Duration;

/// The longest sleep, in microseconds, as a power of two.
const LONGEST: u32 = 11;

// A sleep takes two milliseconds at most, whatever number a caller counts.
const _: () = prove!(LONGEST <= 11);

/// Sleeps for 2^power microseconds, and at most for 2^11. Nobody wakes it before its time.
pub fn sleep<R: Wait>(rt: &R, power: u32) {
    let word = AtomicU64::new(0);
    word.park_timeout(rt, 0, Duration::from_micros(1u64 << power.min(LONGEST)));
}
