//! Why a text is not read.

use std::alloc::{AllocError, AllocFailed};
use thiserror::Error;
use tokens::CutFault;

/// Why a text is not read. They are tested in the order of their numbers; a place is an offset in bytes.
#[derive(Debug, Drop, Error)]
pub enum ReadFault {
    /// The text has more than 65,536 bytes.
    #[error("1 too long")]
    TooLong,
    /// Some byte is 128 or more.
    #[error("2 not ascii")]
    NotAscii,
    /// No program of the language continues at this place.
    #[error("3 syntax at {0}")]
    Syntax(u32),
    /// More than 64 levels are open after some token, or a run has more than 64 operators.
    #[error("4 too deep")]
    TooDeep,
    /// An allocation was refused.
    #[error("5 memory")]
    Memory,
}

impl From<AllocError> for ReadFault {
    ghost use Rattle.std.specs.Prelude.{◌≡◌};
    ghost use Rattle.syntax.specs.declared.fault.ReadFault.TheVariants.{Memory};

    ghost from_gives = { λ _ e. e ≡ Memory };

    fn from(_e: AllocError) -> ReadFault {
        ReadFault::Memory
    }
}

impl<T: Drop> From<AllocFailed<T>> for ReadFault {
    ghost use Rattle.std.specs.Prelude.{◌≡◌};
    ghost use Rattle.syntax.specs.declared.fault.ReadFault.TheVariants.{Memory};

    ghost from_gives = { λ _ e. e ≡ Memory };

    fn from(_e: AllocFailed<T>) -> ReadFault {
        ReadFault::Memory
    }
}

impl From<CutFault> for ReadFault {
    ghost use Rattle.std.specs.Prelude.{◌≡◌};
    ghost use Rattle.syntax.specs.Cutting.{fault_of};

    ghost from_gives = { λ c e. e ≡ fault_of c };

    fn from(fault: CutFault) -> ReadFault {
        match fault {
            CutFault::Memory => ReadFault::Memory,
            CutFault::Syntax(at) => ReadFault::Syntax(at),
        }
    }
}
