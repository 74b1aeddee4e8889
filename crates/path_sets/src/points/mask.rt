//! Sets of 64 points as masks.

ghost use Rattle.std.specs.Prelude.{◌≡◌, ◌<◌, ◌^◌};
ghost use Rattle.path_sets.specs.Masks.{bit_of, AddsPoint};

/// The mask of one point.
pub(crate) fn mask_of_point(bit: usize) -> u64
    requires { bit < 64 }
    ensures { result ≡ 2 ^ bit }
{
    1 << bit
}

/// Whether the point of a bit is in a mask.
pub(crate) fn has_point(mask: u64, bit: usize) -> bool
    requires { bit < 64 }
    ensures { result ≡ bit_of mask bit }
{
    (mask >> bit) & 1 == 1
}

/// Puts the point of a bit into a mask. Returns whether the point is new.
// The mask is written in either case, so that no jump depends on it.
#[inline(always)]
pub fn add_point(mask: &mut u64, bit: usize) -> bool
    requires { bit < 64 }
    ensures { AddsPoint bit mask.old mask.new result }
{
    let known = has_point(*mask, bit);
    *mask |= mask_of_point(bit);
    !known
}
