//! What an exploration comes to.

/// Whether some run of the rounds asked for fails an assert.
#[derive(Clone, Copy, PartialEq, Eq, Debug)]
pub enum Answer {
    Safe,
    Unsafe,
}

/// What was found.
#[derive(Clone, Copy, PartialEq, Eq, Debug)]
pub struct Report {
    /// Whether some run fails.
    pub answer: Answer,
    /// The least number of rounds of which a run fails; where none does, how many rounds were explored.
    pub rounds: u64,
    /// Whether no run of any number of rounds fails.
    pub settled: bool,
    /// How many turns were made, the one that fails among them.
    pub turns: u64,
    /// How much the turns have found, in all.
    pub heads: u64,
    /// How many tuples were met.
    pub tuples: u64,
    /// How many sets of stacks there are.
    pub nodes: u64,
}

/// Why there is no verdict.
#[derive(Clone, Copy, PartialEq, Eq, Debug)]
pub enum NoVerdict {
    /// Some procedure of the program has more than 128 places.
    TooWide,
    /// Memory was refused.
    Memory,
    /// The limit of work was reached. No run of this number of rounds fails.
    Limit(u64),
}
