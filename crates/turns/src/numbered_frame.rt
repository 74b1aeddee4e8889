//! Frames by numbers.

use language::{Point, Word};

/// A frame of a thread's stack, by numbers: its procedure; a point of it, which for the top frame is that of the
/// statement that runs next, and for a frame below another that of its call; and the values of its places, each in its
/// bit of a valuation, over bits of 0 for the globals.
#[derive(Clone, Copy, PartialEq, Eq, Hash, Debug)]
pub struct NumberedFrame {
    pub procedure: u8,
    pub point: Point,
    pub places: Word,
}
