//! Valuations in two halves.

ghost use Rattle.std.specs.Prelude.{nat_eq};
ghost use Rattle.std.proofs.Common.{rules};
ghost use Rattle.std.specs.Cmp.Rules.{comparing, hashing};
ghost use Rattle.std.specs.Hash as fed;

use language::Word;
use std::hash::{Hash, Hasher};
use std::marker::Model;

/// 2^64 divided by the golden ratio: the factor of the high half of a valuation where it is hashed with the low one.
const SPREAD: u64 = 0x9E37_79B9_7F4A_7C15;

/// Half of a valuation: 64 bits in two words of 32, which need not be aligned to 8 bytes.
#[derive(Clone, Copy)]
struct Half {
    low: u32,
    high: u32,
}

impl Model for Half {
    ghost use Rattle.std.specs.Prelude.{◌≡◌, ℕ, ◌+◌, ◌*◌, ◌/◌, ◌%◌, ◌^◌, ◌<◌};
    ghost use Rattle.std.proofs.Common.{arith};

    ghost Value = { ℕ };

    ghost view = { λ h. h.low + 2 ^ 32 * h.high };

    ghost invariant = { λ h. h.low < 2 ^ 32 };

    ghost inverse = { λ n. record { low = n % 2 ^ 32; high = n / 2 ^ 32 } };

    ghost inverse_ok = { λ h small.
        let low : (h.low + 2 ^ 32 * h.high) % 2 ^ 32 ≡ h.low = omega (arith, small) in
        let high : (h.low + 2 ^ 32 * h.high) / 2 ^ 32 ≡ h.high = omega (arith, small) in
        λ i. record { low = low i; high = high i } };
}

impl Half {
    ghost use Rattle.std.specs.Prelude.{◌≡◌, ◌<◌, ◌^◌};

    /// The half with these bits.
    fn new(bits: u64) -> Self
        ensures { result ≡ bits }
    {
        Half {
            low: (bits % (1 << 32)) as u32,
            high: (bits >> 32) as u32,
        }
    }

    /// The bits.
    fn bits(self) -> u64
        ensures { result ≡ self }
    {
        u64::from(self.low) + (u64::from(self.high) << 32)
    }
}

/// A valuation in two halves, for values that are kept many times: it need be aligned to 4 bytes only, and not to 16,
/// so that less memory is lost between values. Contracts see it as the valuation.
#[derive(Clone, Copy)]
pub struct Halves {
    low: Half,
    high: Half,
}

impl Model for Halves {
    ghost use Rattle.std.specs.Prelude.{◌≡◌, ℕ, ◌+◌, ◌*◌, ◌/◌, ◌%◌, ◌^◌, ◌<◌};
    ghost use Rattle.std.proofs.Common.{arith};

    ghost Value = { ℕ };

    ghost view = { λ h. h.low + 2 ^ 64 * h.high };

    ghost invariant = { λ h. h.low < 2 ^ 64 };

    ghost inverse = { λ n. record { low = n % 2 ^ 64; high = n / 2 ^ 64 } };

    ghost inverse_ok = { λ h small.
        let low : (h.low + 2 ^ 64 * h.high) % 2 ^ 64 ≡ h.low = omega (arith, small) in
        let high : (h.low + 2 ^ 64 * h.high) / 2 ^ 64 ≡ h.high = omega (arith, small) in
        λ i. record { low = low i; high = high i } };
}

impl Halves {
    ghost use Rattle.std.specs.Prelude.{◌≡◌};

    /// The halves of a valuation.
    pub fn new(word: Word) -> Self
        ensures { result ≡ word }
    {
        let wide = word as u128;
        Halves {
            low: Half::new((wide % (1 << 64)) as u64),
            high: Half::new((wide >> 64) as u64),
        }
    }

    /// The valuation.
    pub fn word(self) -> Word
        ensures { result ≡ self }
    {
        self.low.bits() as Word + ((self.high.bits() as Word) << 64)
    }
}

impl PartialEq for Halves {
    ghost eq = { nat_eq };

    ghost laws = { Prim.search (comparing, rules) };

    fn eq(&self, other: &Halves) -> bool {
        self.word() == other.word()
    }
}

impl Eq for Halves {
    ghost laws = { Prim.search (comparing, rules) };
}

impl Hash for Halves {
    ghost use Rattle.std.specs.Prelude.{◌+◌, ◌*◌, ◌/◌, ◌%◌, ◌^◌};

    ghost hash_input = { λ n. fed.u64 ((n % 2 ^ 64 + n / 2 ^ 64 * 11400714819323198485 % 2 ^ 64) % 2 ^ 64) };

    ghost respects_eq = { Prim.search (hashing, rules) };

    // Both halves in one number of 64 bits, since a hasher takes one in a few steps.
    fn hash<H: Hasher>(&self, state: &mut H) {
        let high = self.high.bits().wrapping_mul(SPREAD);
        self.low.bits().wrapping_add(high).hash(state);
    }
}
