//! What a turn finds.

use language::Word;
use turns::NumberedFrame;

/// The first state of a call: the globals, and the first frame. It names the call.
#[derive(Clone, Copy, PartialEq, Eq, Hash)]
pub struct Entry {
    pub globals: Word,
    pub frame: NumberedFrame,
}

/// What lies below a frame.
#[derive(Clone, Copy, PartialEq, Eq, Hash)]
pub enum Below {
    /// The stacks of the node with this number, from before the turn.
    Old(usize),
    /// The stacks from which this call is made in the turn.
    Call(Entry),
}

/// A top frame with its globals, over what lies below it.
#[derive(Clone, Copy, PartialEq, Eq, Hash)]
pub struct Top {
    pub globals: Word,
    pub frame: NumberedFrame,
    pub below: Below,
}

/// A frame that waits below a call, over what lies below it.
#[derive(Clone, Copy, PartialEq, Eq, Hash)]
pub struct Caller {
    pub entry: Entry,
    pub frame: NumberedFrame,
    pub below: Below,
}

/// What a turn finds.
#[derive(Clone, Copy, PartialEq, Eq, Hash)]
pub enum Item {
    Head(Top),
    Waits(Caller),
    /// The stack may be empty, with these globals.
    Gone(Word),
}
