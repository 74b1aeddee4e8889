//! The words of the command line, from the system, and the reply if it does not pass them on.

ghost use Rattle.std.specs.Prelude.{◌≤◌};
ghost use Rattle.std.specs.IoError.{error_kind};
ghost use Rattle.streams.specs.Ended.{TellsNotPassed};
ghost use Rattle.streams.specs.Streams.{streams};

use crate::saying::{say, tell};
use crate::sink::Stream;
use crate::unserved::no_room;
use std::alloc::Global;
use std::env;
use std::io::{self, ErrorKind};
use std::rt::Env;

/// Replies to words that the system did not pass on, and returns the status: `refused: line` with 2 if one is not
/// UTF-8, and the reply for lack of memory with 3 otherwise. The reason is written to `log`. If a write to `writer`
/// fails, the status is 3.
pub fn not_passed<W: Stream, L: Stream>(
    alloc: Global,
    error: &io::Error,
    writer: &mut W,
    log: &mut L,
) -> u8
    ensures tells { TellsNotPassed (error_kind error.now)
        (streams (W.held writer.old) (L.held log.old))
        (streams (W.held writer.new) (L.held log.new)) result }
    ensures status { (2 ≤ result) × (result ≤ 3) }
{
    if error.kind() != ErrorKind::InvalidData {
        return no_room(alloc, writer, log);
    }
    tell(log, b"error: a word of the command line is no UTF-8\n");
    say(alloc, writer, log, b"refused: line\n", 2)
}

/// The words of the command line, from the system, the program's own name first.
pub fn words<R: Env + AllocGlobal>(rt: &R) -> io::Result<Vec<String>> {
    Ok(env::args(rt)?.collect(rt.alloc())?)
}
