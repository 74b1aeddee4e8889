//! The limit of what is rewritten, which `specs/Limits.antt` has for contracts.

/// How many rounds there are at most.
pub const MOST_ROUNDS: u8 = 8;
