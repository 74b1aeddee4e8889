//! Path edges of one procedure, and the calls on them.

use language::{Point, Word};

/// A path edge: the valuation on entry, the point, and the valuation there. A call stands at one, its site.
#[derive(Clone, Copy)]
pub(crate) struct PathEdge {
    pub(crate) entry: Word,
    pub(crate) point: Point,
    pub(crate) values: Word,
}

/// What calls have in common that enter one procedure with one valuation: the procedure called and the valuation on its
/// entry.
#[derive(Clone, Copy, PartialEq, Eq, Hash)]
pub(crate) struct CallKey {
    pub(crate) callee: u8,
    pub(crate) entered: Word,
}
