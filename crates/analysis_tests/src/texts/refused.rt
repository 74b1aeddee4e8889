//! Texts that are read and printed while allocations are refused in turn.

use cases::{Outcome, Sweep, Swept};
use scarce::Scarce;
use std::alloc::{AllocError, Allocator};
use syntax::{ReadFault, print, read};

/// Reads the text and prints it again, which has to give the wanted text.
fn printed<A: Allocator + Copy>(alloc: A, bytes: &[u8], wanted: &str) -> Outcome {
    match read(alloc, bytes) {
        Ok(program) => match print(alloc, &program) {
            Ok(text) if text.as_str() == wanted => Outcome::Whole,
            Ok(_) => Outcome::Other,
            Err(AllocError) => Outcome::Memory,
        },
        Err(ReadFault::Memory) => Outcome::Memory,
        Err(_) => Outcome::Other,
    }
}

/// The same while allocations are refused in turn.
pub fn swept<A: Allocator + Copy>(alloc: A, sweep: Sweep, bytes: &[u8], wanted: &str) -> Swept {
    sweep.of(alloc, |scarce: &Scarce<A>| printed(scarce, bytes, wanted))
}
