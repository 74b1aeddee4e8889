//! The limit of what is analysed, which `specs/Limits.antt` has for contracts.

use language::WORD_BITS;

/// How many places a procedure of a sequential program has at most: each is a bit of a valuation.
pub const MOST_PLACES: usize = WORD_BITS as usize;
