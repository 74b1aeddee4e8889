//! The limit of what is read, which `specs/Limits.antt` has for contracts.

/// How many bytes a text has at most.
pub const MOST_BYTES: usize = 65_536;
