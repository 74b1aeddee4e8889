//! The lowest bits of numbers.

use language::{WORD_BITS, Word};
use std::marker::Model;

/// So many of the lowest bits, with their mask. Contracts see them as how many they are.
#[derive(Clone, Copy)]
pub(crate) struct LowBits {
    count: u8,
    mask: Word,
}

impl Model for LowBits {
    ghost use Rattle.std.specs.Prelude.{◌≡◌, ℕ, ◌-◌, ◌^◌};
    ghost use Rattle.std.proofs.Common.{sym};

    ghost Value = { ℕ };

    ghost view = { λ l. l.count };

    ghost invariant = { λ l. l.mask ≡ 2 ^ l.count - 1 };

    ghost inverse = { λ n. record { count = n; mask = 2 ^ n - 1 } };

    ghost inverse_ok = { λ l is. λ i. record { count = l.count; mask = sym is i } };
}

impl LowBits {
    ghost use Rattle.std.specs.Prelude.{◌≡◌, ◌≤◌, ◌^◌, ◌%◌};
    ghost use Rattle.language.specs.Words.{word_bits};

    /// So many of the lowest bits.
    pub(crate) fn new(count: u8) -> Self
        requires { count ≤ word_bits }
        ensures { result ≡ count }
    {
        let mask = if count < WORD_BITS {
            (1 << count) - 1
        } else {
            Word::MAX
        };
        LowBits { count, mask }
    }

    /// How many they are.
    pub(crate) fn count(self) -> u8
        ensures { result ≡ self }
    {
        self.count
    }

    /// Those of a number.
    pub(crate) fn of(self, values: Word) -> Word
        ensures { result ≡ values % 2 ^ self }
    {
        values & self.mask
    }
}
