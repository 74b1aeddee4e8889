//! What is paired at a return.

use crate::item::Below;
use language::Word;
use turns::NumberedFrame;

/// A frame that waits below a call, over what lies below it.
#[derive(Clone, Copy)]
pub(crate) struct Resting {
    pub(crate) frame: NumberedFrame,
    pub(crate) below: Below,
}

/// A finished frame of a call, with its globals.
#[derive(Clone, Copy)]
pub(crate) struct Finished {
    pub(crate) globals: Word,
    pub(crate) frame: NumberedFrame,
}
