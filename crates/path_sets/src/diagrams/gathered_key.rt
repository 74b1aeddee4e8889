//! What a mask is gathered for.

use crate::points::halves::Halves;

/// The key of a mask that is gathered, in less memory than a `MaskKey`: the index of its diagram, and the valuation at
/// its points.
#[derive(Clone, Copy, PartialEq, Eq, Hash)]
pub(crate) struct GatheredKey {
    pub(crate) diagram: usize,
    pub(crate) values: Halves,
}
