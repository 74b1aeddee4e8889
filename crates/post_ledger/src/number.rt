//! Numbers in two halves.

use std::marker::Model;

/// A number in two halves of 16 bits, which need not be aligned to 4 bytes, so that less memory is lost beside it. Contracts
/// see it as the number.
#[derive(Clone, Copy)]
pub(crate) struct Number {
    low: u16,
    high: u16,
}

impl Model for Number {
    ghost use Rattle.std.specs.Prelude.{◌≡◌, ℕ, ◌+◌, ◌*◌, ◌/◌, ◌%◌, ◌^◌, ◌<◌};
    ghost use Rattle.std.proofs.Common.{arith};

    ghost Value = { ℕ };

    ghost view = { λ n. n.low + 2 ^ 16 * n.high };

    ghost invariant = { λ n. n.low < 2 ^ 16 };

    ghost inverse = { λ n. record { low = n % 2 ^ 16; high = n / 2 ^ 16 } };

    ghost inverse_ok = { λ n small.
        let low : (n.low + 2 ^ 16 * n.high) % 2 ^ 16 ≡ n.low = omega (arith, small) in
        let high : (n.low + 2 ^ 16 * n.high) / 2 ^ 16 ≡ n.high = omega (arith, small) in
        λ i. record { low = low i; high = high i } };
}

impl Number {
    ghost use Rattle.std.specs.Prelude.{◌≡◌};

    /// The halves of a number.
    pub(crate) fn new(number: u32) -> Self
        ensures { result ≡ number }
    {
        Number {
            low: (number % (1 << 16)) as u16,
            high: (number >> 16) as u16,
        }
    }

    /// The number.
    pub(crate) fn get(self) -> u32
        ensures { result ≡ self }
    {
        u32::from(self.low) + (u32::from(self.high) << 16)
    }
}
