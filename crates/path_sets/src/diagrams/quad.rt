//! One node of a decision diagram that continues by two bits at once.

ghost use Rattle.std.specs.Prelude.{◌≡◌, ℕ, ◌%◌};
ghost use Rattle.path_sets.specs.Quads.{quad_child};

use language::{WORD_BITS, Word};

/// How many levels there are, two bits of a valuation at each; `specs/Quads.antt` has the number for contracts.
pub(crate) const LEVELS: u8 = WORD_BITS / 2;

/// A node: the points of the valuation 0, and the numbers to which another valuation continues by its two low bits: if
/// both are 0, if only the first is 1, if only the second is 1, and if both are 1.
#[derive(Clone, Copy, PartialEq, Eq, Hash)]
pub(crate) struct Quad {
    pub(crate) points: u64,
    pub(crate) none: u32,
    pub(crate) first: u32,
    pub(crate) second: u32,
    pub(crate) both: u32,
}

/// The node of the numbers 0 and 1, at which there is nothing.
pub(crate) const NOTHING: Quad = Quad {
    points: 0,
    none: 0,
    first: 0,
    second: 0,
    both: 0,
};

/// The child of a node by a valuation: the number to which the valuation continues.
pub(crate) fn child(quad: &Quad, values: Word) -> u32
    ensures { result ≡ quad_child quad.now values }
{
    match values % 4 {
        0 => quad.none,
        1 => quad.first,
        2 => quad.second,
        _ => quad.both,
    }
}

/// Makes a number the child of a node by a valuation, and by those with the same two low bits.
pub(crate) fn set_child(quad: &mut Quad, values: Word, number: u32)
    ensures points { quad.new.points ≡ quad.old.points }
    ensures here { (v : ℕ) → v % 4 ≡ values % 4 → quad_child quad.new v ≡ number }
    ensures others { (v : ℕ) → (v % 4 ≡ values % 4 → ⊥)
        → quad_child quad.new v ≡ quad_child quad.old v }
{
    match values % 4 {
        0 => quad.none = number,
        1 => quad.first = number,
        2 => quad.second = number,
        _ => quad.both = number,
    }
}
