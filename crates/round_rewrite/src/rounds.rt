//! Numbers of rounds.

ghost use Rattle.std.specs.Prelude.{◌≡◌, ◌<◌, ◌≤◌, IfSome, IsSome, ◌↔◌};
ghost use Rattle.round_rewrite.specs.Limits.{most_rounds, round_bits};

use crate::limits::MOST_ROUNDS;

/// A number of rounds, from 1 to `MOST_ROUNDS`.
#[derive(Clone, Copy)]
pub struct Rounds {
    /// The last round, counted from 0.
    pub(crate) last: u8,
    ghost few: { last < most_rounds },
}

impl Rounds {
    ghost use Rattle.round_rewrite.specs.Programs.{count_of};

    /// A given number of rounds; `None` if it is 0 or more than `MOST_ROUNDS`.
    pub fn new(rounds: u8) -> Option<Rounds>
        ensures some { IsSome result ↔ (1 ≤ rounds) × (rounds ≤ most_rounds) }
        ensures count { IfSome result (λ r. count_of r ≡ rounds) }
    {
        if 1 <= rounds && rounds <= MOST_ROUNDS {
            Some(Rounds { last: rounds - 1 })
        } else {
            None
        }
    }

    /// How many rounds.
    pub fn count(self) -> u8
        ensures count { result ≡ count_of self }
        ensures range { (1 ≤ result) × (result ≤ most_rounds) }
    {
        self.last + 1
    }

    /// How many bits the number of a round takes: two for up to four rounds, three for more.
    pub(crate) fn bits(self) -> u8
        ensures count { result ≡ round_bits self.last }
        ensures range { (1 ≤ result) × (result ≤ 3) }
    {
        if self.last < 4 { 2 } else { 3 }
    }
}
