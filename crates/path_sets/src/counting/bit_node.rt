//! One node of a decision diagram that tests one bit.

/// A node: the bit that it tests, and the numbers to which a valuation continues if the bit is 0 and if it is 1.
#[derive(Clone, Copy, PartialEq, Eq, Hash)]
pub(crate) struct BitNode {
    pub(crate) level: u8,
    pub(crate) low: u32,
    pub(crate) high: u32,
}
