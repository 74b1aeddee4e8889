//! What is known of entries.

ghost use Rattle.std.specs.Prelude.{◌≡◌, ◌≤◌, ◌+◌, min};
ghost use Rattle.summaries.specs.Hashes.{few};

use crate::signature::Signature;

/// So many pairs of an entry are found by its signature and its links. If there are more, they are found by their hashes.
pub(crate) const FEW: u32 = 64;

/// What is known of an entry.
#[derive(Clone, Copy)]
pub(crate) struct KnownEntry {
    /// It may have each exit of its pairs.
    pub(crate) seen: Signature,
    /// The link to its last pair.
    pub(crate) last: u32,
    /// How many pairs it has, as far as one more than a few.
    pub(crate) count: u32,
}

impl KnownEntry {
    ghost use Rattle.std.specs.Prelude.{◌≡◌};

    /// That of an entry with no pairs.
    pub(crate) fn new() -> Self
        ensures last { result.last ≡ 0 }
        ensures count { result.count ≡ 0 }
    {
        KnownEntry {
            seen: Signature::none(),
            last: 0,
            count: 0,
        }
    }
}

/// A number of pairs with one more, as far as it is counted.
#[inline(always)]
pub(crate) fn one_more(count: u32) -> u32
    requires { count ≤ few + 1 }
    ensures { result ≡ min (count + 1) (few + 1) }
{
    (count + 1).min(FEW + 1)
}
