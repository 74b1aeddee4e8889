//! Why an analysis has no verdict.

ghost use Rattle.std.specs.Prelude.{◌≡◌};
ghost use Rattle.summaries.specs.declared.no_verdict.NoVerdict.TheVariants.{Memory};

use std::alloc::{AllocError, AllocFailed};

/// Why an analysis has no verdict. Of several reasons, the one that comes first here is returned.
#[derive(Clone, Copy, Debug, PartialEq, Eq)]
pub enum NoVerdict {
    /// Some procedure of the rewritten program has more than 128 places.
    TooWide,
    /// Memory is refused.
    Memory,
    /// The procedure with this number has more path edges than the limit.
    EdgeLimit(usize),
    /// A thread is refused.
    NoWorker,
    /// A worker has used up its calls.
    Spent,
}

impl From<AllocError> for NoVerdict {
    ghost from_gives = { λ _ e. e ≡ Memory };

    fn from(_e: AllocError) -> NoVerdict {
        NoVerdict::Memory
    }
}

impl<T: Drop> From<AllocFailed<T>> for NoVerdict {
    ghost from_gives = { λ _ e. e ≡ Memory };

    fn from(_e: AllocFailed<T>) -> NoVerdict {
        NoVerdict::Memory
    }
}
