//! Why a table can't continue.

ghost use Rattle.std.specs.Prelude.{◌≡◌};
ghost use Rattle.summaries.specs.declared.table_fault.TableFault.TheVariants.{Memory};

use std::alloc::{AllocError, AllocFailed};

/// Why a table can't continue.
#[derive(Clone, Copy, PartialEq, Eq)]
pub enum TableFault {
    /// Memory is refused.
    Memory,
    /// The procedure has more path edges than the limit.
    EdgeLimit,
}

impl From<AllocError> for TableFault {
    ghost from_gives = { λ _ e. e ≡ Memory };

    fn from(_e: AllocError) -> TableFault {
        TableFault::Memory
    }
}

impl<T: Drop> From<AllocFailed<T>> for TableFault {
    ghost from_gives = { λ _ e. e ≡ Memory };

    fn from(_e: AllocFailed<T>) -> TableFault {
        TableFault::Memory
    }
}
