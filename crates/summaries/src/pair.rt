//! Pairs of a procedure.

use language::Word;

/// What one call of a procedure does as a whole (a summary edge after Ball and Rajamani 2000): entered with the
/// valuation `a`, it leaves the globals `b` and the result `r`.
#[derive(Clone, Copy, PartialEq, Eq, PartialOrd, Ord, Hash)]
pub struct Pair {
    /// The valuation on entry.
    pub a: Word,
    /// The globals that are left.
    pub b: Word,
    /// The result: 0 if the procedure gives none.
    pub r: bool,
}
