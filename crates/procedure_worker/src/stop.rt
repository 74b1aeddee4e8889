//! Why a worker stops, and how it ended.
ghost use Rattle.std.specs.Prelude.{◌≡◌};
ghost use Rattle.procedure_worker.specs.Stops.{cause_of, end_of, memory_of};

use crate::memory::OutOfMemory;
use crate::outcome::End;
use switchboard::Cause;

/// Why a worker aborts its board.
#[derive(Clone, Copy)]
pub(crate) enum Reason {
    /// Its pass has used up its calls.
    Spent,
    /// Its procedure has more path edges than the limit.
    EdgeLimit,
    /// Memory was refused.
    OutOfMemory(OutOfMemory),
}

impl Reason {
    /// The cause for which to abort.
    pub(crate) fn cause(self) -> Cause
        ensures { result ≡ cause_of self }
    {
        match self {
            Reason::Spent => Cause::Spent,
            Reason::EdgeLimit => Cause::EdgeLimit,
            Reason::OutOfMemory(_) => Cause::Memory,
        }
    }
}

/// Why a worker stops: for a reason of its own; or, without one, since another pass aborted the board.
pub(crate) type Stop = Option<Reason>;

/// How a worker ended: at the close, or since it stopped.
pub(crate) type Finish = Result<(), Stop>;

/// How a worker ended, as its outcome says it.
pub(crate) fn end_of(finish: Finish) -> End
    ensures { result ≡ end_of finish }
{
    match finish {
        Ok(()) => End::Closed,
        Err(None) => End::Aborted,
        Err(Some(why)) => End::Failed(why.cause()),
    }
}

/// Evidence that memory was refused, if the worker failed for that.
pub(crate) fn memory_of(finish: Finish) -> Option<OutOfMemory>
    ensures { result ≡ memory_of finish }
{
    match finish {
        Err(Some(Reason::OutOfMemory(witness))) => Some(witness),
        _ => None,
    }
}
