//! What is called at the takes and posts of workers while they run.

/// What is called at takes and posts. Each call comes while the lane has no guard of the board, and may wait
/// for another. A gate that workers on several threads share is `Sync` as well; whoever starts them requires
/// that.
pub trait Gate {
    /// The lane has taken a message, the `count`th that it took, counted from 1. Its table gets the message next.
    fn taken(&self, lane: u8, count: u64);

    /// The lane has posted a message, the `count`th that it posted, counted from 1.
    fn posted(&self, lane: u8, count: u64);
}

/// The gate that does nothing.
#[derive(Clone, Copy)]
pub struct Open;

impl Gate for Open {
    fn taken(&self, lane: u8, count: u64) {
        let _ = (lane, count);
    }

    fn posted(&self, lane: u8, count: u64) {
        let _ = (lane, count);
    }
}
