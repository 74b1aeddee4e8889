//! Valuations and points as numbers.

/// A valuation as a number: the globals from bit 0 in the order of their declaration, then the formals, locals and
/// temporaries. `WORD_BITS` places fit.
pub type Word = u128;

/// How many bits a valuation has, which `specs/Words.antt` has for contracts.
pub const WORD_BITS: u8 = 128;

/// A point of a procedure: the number of a statement in text order, from 1, before which it stands, or 0, the exit.
pub type Point = usize;

/// The exit of each procedure.
pub const EXIT: Point = 0;
