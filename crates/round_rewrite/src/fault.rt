//! Why a program is not rewritten.

use std::alloc::{AllocError, AllocFailed};
use thiserror::Error;

/// Why a program is not rewritten.
#[derive(Debug, Drop, Error)]
pub enum RewriteFault {
    /// Some procedure of the rewritten program has more than 128 places: globals, formals, locals,
    /// temporaries and the result.
    #[error("14 too wide")]
    TooWide,
    /// An allocation was refused.
    #[error("15 memory")]
    Memory,
}

impl From<AllocError> for RewriteFault {
    ghost use Rattle.std.specs.Prelude.{◌≡◌};
    ghost use Rattle.round_rewrite.specs.declared.fault.RewriteFault.TheVariants.{Memory};

    ghost from_gives = { λ _ e. e ≡ Memory };

    fn from(_e: AllocError) -> RewriteFault {
        RewriteFault::Memory
    }
}

impl<T: Drop> From<AllocFailed<T>> for RewriteFault {
    ghost use Rattle.std.specs.Prelude.{◌≡◌};
    ghost use Rattle.round_rewrite.specs.declared.fault.RewriteFault.TheVariants.{Memory};

    ghost from_gives = { λ _ e. e ≡ Memory };

    fn from(_e: AllocFailed<T>) -> RewriteFault {
        RewriteFault::Memory
    }
}
