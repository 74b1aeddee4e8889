//! What the program is asked to do.

use exploration::{Rounds, WorkLimit};

/// An order: how far the program explores, and what it prints.
#[derive(Clone, Copy)]
pub struct Order {
    /// How many rounds are explored.
    pub rounds: Rounds,
    /// How much is found and met at most.
    pub limit: WorkLimit,
    /// Whether a verdict is followed by what was counted.
    pub stats: bool,
}
