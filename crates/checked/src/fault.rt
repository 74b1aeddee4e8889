//! Why a program is not checked.

use std::alloc::AllocError;
use thiserror::Error;

/// Why a program is not checked; a place is an offset in bytes.
#[derive(Debug, Drop, Error)]
pub enum ScopeFault {
    /// The variable or the called procedure at this place has no declaration.
    #[error("6 undeclared at {0}")]
    Undeclared(u32),
    /// The name at this place occurs again among the globals, the procedures, the formals and locals of one
    /// procedure, or the targets of one assignment.
    #[error("7 declared twice at {0}")]
    DeclaredTwice(u32),
    /// The targets that begin at this place and their right sides differ in number, or the arguments and the formals of
    /// the procedure that is called here.
    #[error("8 wrong count at {0}")]
    WrongCount(u32),
    /// The name at this place, in a thread line, is that of no procedure, or of one with formals.
    #[error("9 bad thread at {0}")]
    BadThread(u32),
    /// The name at this place, in a `goto`, is not a label of its procedure, or it is a label that is defined
    /// again.
    #[error("10 bad label at {0}")]
    BadLabel(u32),
    /// The declared variable, procedure or label at this place has two underscores in a row.
    #[error("11 reserved at {0}")]
    Reserved(u32),
    /// The procedure of this name is the 32nd, the thread line at this place the 9th, or the statement the 1,001st.
    #[error("12 too many at {0}")]
    TooMany(u32),
    /// An allocation was refused.
    #[error("13 memory")]
    Memory,
}

impl From<AllocError> for ScopeFault {
    ghost use Rattle.std.specs.Prelude.{◌≡◌};
    ghost use Rattle.checked.specs.declared.fault.ScopeFault.TheVariants.{Memory};

    ghost from_gives = { λ _ e. e ≡ Memory };

    fn from(_e: AllocError) -> ScopeFault {
        ScopeFault::Memory
    }
}

impl ScopeFault {
    ghost use Rattle.std.specs.Prelude.{◌≡◌};
    ghost use Rattle.checked.specs.Checked.{offset};

    /// The offset of a fault; 0 of `Memory`, which has none.
    pub fn offset(&self) -> u32
        ensures { result ≡ offset self.now }
    {
        match self {
            ScopeFault::Undeclared(at) => *at,
            ScopeFault::DeclaredTwice(at) => *at,
            ScopeFault::WrongCount(at) => *at,
            ScopeFault::BadThread(at) => *at,
            ScopeFault::BadLabel(at) => *at,
            ScopeFault::Reserved(at) => *at,
            ScopeFault::TooMany(at) => *at,
            ScopeFault::Memory => 0,
        }
    }
}
