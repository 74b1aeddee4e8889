//! A bit of a valuation.

ghost use Rattle.std.specs.Prelude.{◌≡◌, ◌<◌, ◌/◌, ◌%◌, ℕ};
ghost use Rattle.std.specs.Int.{bit_at};
ghost use Rattle.language.specs.Words.{word_bits};

use language::Word;

/// How many bits half of a valuation has.
pub(crate) const HALF: u8 = 64;

/// The half of a valuation that contains a bit: a shift of 128 bits takes several steps.
#[inline(always)]
pub(crate) fn half(values: Word, at: u8) -> u64
    ensures { (i : ℕ) → i < word_bits → i / 64 ≡ at / 64
        → bit_at result (i % 64) ≡ bit_at values i }
{
    if at < HALF {
        (values % (1 << HALF)) as u64
    } else {
        (values >> HALF) as u64
    }
}

/// The value of a bit, 0 or 1.
#[inline(always)]
pub(crate) fn bit(values: Word, at: u8) -> u64
    requires { at < word_bits }
    ensures { result ≡ bit_at values at }
{
    half(values, at) >> (at % HALF) & 1
}
