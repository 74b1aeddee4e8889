//! Masks as they go into the diagrams.

ghost use Rattle.std.specs.Prelude.{◌≡◌, ◌*◌, ◌≤◌, ◌<◌, ◌/◌, ◌^◌, Some, length, slice_get, IfSome};
ghost use Rattle.std.specs.Prelude.{IsNone};
ghost use Rattle.path_sets.specs.Halves.{ContinuesBy, half_levels, valuation_of};

use language::Word;

/// How many levels a half of a valuation has, two bits at each; `specs/Halves.antt` has the number for contracts.
const HALF: u8 = 32;

/// A mask that is to be put into a diagram: the index of the diagram, the low 64 bits of the valuation and those above,
/// and the mask.
#[derive(Clone, Copy)]
pub(crate) struct Insertion {
    pub(crate) diagram: usize,
    pub(crate) low: u64,
    pub(crate) high: u64,
    pub(crate) mask: u64,
}

/// The insertion of a valuation with these points, in the diagram at an index.
pub(crate) fn insertion_of(diagram: usize, values: Word, mask: u64) -> Insertion
    ensures diagram { result.diagram ≡ diagram }
    ensures values { valuation_of result ≡ values }
    ensures mask { result.mask ≡ mask }
{
    let wide = values as u128;
    Insertion {
        diagram,
        low: (wide % (1 << 64)) as u64,
        high: (wide >> 64) as u64,
        mask,
    }
}

/// The insertion at an index.
pub(crate) fn insertion_at(insertions: &[Insertion], at: usize) -> Insertion
    requires { at < length insertions.now }
    ensures { slice_get insertions.now at ≡ Some result }
{
    insertions[at]
}

/// The two bits by which an insertion's valuation continues at a level; `None` if nothing is left of it.
pub(crate) fn next_two_bits(insertion: &Insertion, level: u8) -> Option<u8>
    requires { level ≤ 2 * half_levels }
    ensures some { IfSome result (λ w. ContinuesBy (valuation_of insertion.now) level w) }
    ensures none { IsNone result → valuation_of insertion.now / 4 ^ level ≡ 0 }
    ensures level { IfSome result (λ w. level < 2 * half_levels) }
{
    if level < HALF {
        let rest = insertion.low >> (2 * level);
        if rest == 0 && insertion.high == 0 {
            return None;
        }
        return Some((rest % 4) as u8);
    }
    if level == 2 * HALF {
        return None;
    }
    let rest = insertion.high >> (2 * (level - HALF));
    if rest == 0 {
        return None;
    }
    Some((rest % 4) as u8)
}

/// The bits of a number in reverse order.
fn bits_reversed(bits: u64) -> u64 {
    let mut now = bits;
    now = now >> 1 & 0x5555_5555_5555_5555 | (now & 0x5555_5555_5555_5555) << 1;
    now = now >> 2 & 0x3333_3333_3333_3333 | (now & 0x3333_3333_3333_3333) << 2;
    now = now >> 4 & 0x0f0f_0f0f_0f0f_0f0f | (now & 0x0f0f_0f0f_0f0f_0f0f) << 4;
    now = now >> 8 & 0x00ff_00ff_00ff_00ff | (now & 0x00ff_00ff_00ff_00ff) << 8;
    now = now >> 16 & 0x0000_ffff_0000_ffff | (now & 0x0000_ffff_0000_ffff) << 16;
    now >> 32 | now << 32
}

/// The key by which insertions are sorted: those of a diagram come one after another, and within a diagram those whose
/// first bits are the same.
pub(crate) fn sort_key(insertion: &Insertion) -> (usize, u64, u64)
    ensures { result.0 ≡ insertion.now.diagram }
{
    let high = if insertion.high == 0 {
        0
    } else {
        bits_reversed(insertion.high)
    };
    (insertion.diagram, bits_reversed(insertion.low), high)
}
