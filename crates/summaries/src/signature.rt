//! Which exits may be among some.

ghost use Rattle.std.specs.Prelude.{◌≡◌, ◌<◌};
ghost use Rattle.summaries.specs.Signatures.{bit_for};

use flow_graph::Exit;
use path_sets::add_point;

/// 2^64 divided by the golden ratio: its products with numbers that are near each other differ in their highest bits.
const SPREAD: u64 = 0x9E37_79B9_7F4A_7C15;

/// Which of many exits may be among some: a set of 64 bits, in which each exit has one.
#[derive(Clone, Copy)]
pub(crate) struct Signature {
    bits: u64,
}

/// Which of the 64 bits an exit has: the highest six bits of a product.
#[inline(always)]
fn bit_of_exit(left: Exit) -> usize
    ensures bit { result ≡ bit_for left }
    ensures within { result < 64 }
{
    let low = (left.globals % (1 << 64)) as u64;
    let high = (left.globals >> 64) as u64;
    let folded = low.wrapping_add(high).wrapping_add(left.result as u64);
    (folded.wrapping_mul(SPREAD) >> 58) as usize
}

impl Signature {
    ghost use Rattle.std.specs.Prelude.{◌↔◌, IsTrue};
    ghost use Rattle.summaries.specs.Signatures.{MayHave};

    /// That of no exits.
    pub(crate) fn none() -> Self {
        Signature { bits: 0 }
    }

    /// Adds the bit of an exit. Returns whether it was not there, so that the exit is not among those added before.
    #[inline(always)]
    pub(crate) fn add(&mut self, left: Exit) -> bool
        ensures added { MayHave self.new left }
        ensures keeps { (other : Exit) → MayHave self.old other → MayHave self.new other }
        ensures new { IsTrue result ↔ (MayHave self.old left → ⊥) }
    {
        add_point(&mut self.bits, bit_of_exit(left))
    }
}
