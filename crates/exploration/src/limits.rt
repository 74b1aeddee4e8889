//! How far is explored.

ghost use Rattle.std.specs.Prelude.{◌≡◌, ◌≤◌, ◌↔◌, IfSome, IsNone, IsSome, suc};

/// How many rounds are explored.
#[derive(Clone, Copy, PartialEq, Eq, Debug)]
pub enum Rounds {
    /// At most this number.
    AtMost(u32),
    /// As many as it takes.
    All,
}

impl Rounds {
    ghost use Rattle.exploration.specs.Limits.{IsAsked};

    /// How many rounds are explored, if these are that many or more.
    pub(crate) fn reached(self, rounds: u64) -> Option<u32>
        ensures some { IfSome result (λ most. (self ≡ Rounds.AtMost most) × (most ≤ rounds)) }
        ensures none { IsNone result → IsAsked self (suc rounds) }
    {
        match self {
            Rounds::AtMost(most) if u64::from(most) <= rounds => Some(most),
            _ => None,
        }
    }
}

/// How much is found and met at most: of what turns find, and of tuples, together at least 1.
#[derive(Clone, Copy)]
pub struct WorkLimit {
    most: u32,
    ghost some: { 1 ≤ most },
}

impl WorkLimit {
    ghost use Rattle.exploration.specs.Limits.{most_of};

    /// The limit of this number; `None` if it is 0.
    pub fn new(most: u32) -> Option<WorkLimit>
        ensures some { IsSome result ↔ (1 ≤ most) }
        ensures most { IfSome result (λ limit. most_of limit ≡ most) }
    {
        if 1 <= most {
            Some(WorkLimit { most })
        } else {
            None
        }
    }

    /// The number.
    pub fn most(self) -> u32
        ensures most { result ≡ most_of self }
        ensures some { 1 ≤ result }
    {
        self.most
    }
}
