//! Why a program has no graphs.

use std::alloc::AllocError;
use thiserror::Error;

/// Why no graphs were drawn of a checked program.
#[derive(Debug, Drop, Error)]
pub enum NoGraphs {
    /// Some procedure has more than 128 places: globals, formals, locals and the result.
    #[error("14 too wide")]
    TooWide,
    /// An allocation was refused.
    #[error("15 memory")]
    Memory,
}

impl From<AllocError> for NoGraphs {
    ghost use Rattle.std.specs.Prelude.{◌≡◌};
    ghost use Rattle.source_graphs.specs.declared.no_graphs.NoGraphs.TheVariants.{Memory};

    ghost from_gives = { λ _ e. e ≡ Memory };

    fn from(_e: AllocError) -> NoGraphs {
        NoGraphs::Memory
    }
}
