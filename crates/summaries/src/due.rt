//! What one procedure's table tells another.

use path_sets::Halves;

/// Who enters a procedure.
#[derive(Clone, Copy, PartialEq, Eq, Hash)]
pub enum Caller {
    /// Nobody: procedure 0 is entered as the program starts.
    Starter,
    /// A call in the procedure with this number.
    Proc(u8),
}

/// A message to a procedure, which takes 36 bytes. Valuations are numbers whose bits are the values of the places, kept
/// as `path_sets::Halves`.
#[derive(Clone, Copy, PartialEq, Eq, Hash)]
pub enum Due {
    /// The procedure is entered with the valuation `a`.
    Entry {
        /// Who enters it.
        caller: Caller,
        /// The valuation on entry.
        a: Halves,
    },
    /// A procedure that it calls leaves the globals `b` and the result `r` if it was entered with `a`.
    // The small ones come first, where they share a word.
    Summary {
        /// The procedure called.
        p: u8,
        /// Its result: 0 if it gives none.
        r: bool,
        /// The valuation on its entry.
        a: Halves,
        /// The globals that it left.
        b: Halves,
    },
}
