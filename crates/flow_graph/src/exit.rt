//! What a call leaves.

use language::Word;

/// What a procedure leaves at its exit. A caller continues after the call with these globals, and with the result
/// in the variable that it called for, if any.
#[derive(Clone, Copy, PartialEq, Eq, PartialOrd, Ord, Hash)]
pub struct Exit {
    /// The globals.
    pub globals: Word,
    /// The result: 0 if the procedure gives none.
    pub result: bool,
}
