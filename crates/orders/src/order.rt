//! Orders.

use path_sets::EdgeLimit;
use round_rewrite::Rounds;

/// What is asked of a text.
#[derive(Clone, Copy)]
pub enum Order {
    /// Whether a run of at most K rounds fails an assert, if no procedure has more than `edges` path edges;
    /// and, if asked for, the counts of each procedure of the sequential program.
    Check {
        rounds: Rounds,
        edges: EdgeLimit,
        stats: bool,
    },
    /// The sequential program that it is rewritten to for K rounds.
    Sequential {
        rounds: Rounds,
    },
}
