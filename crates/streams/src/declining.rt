//! The reply to words of the command line that give no order.

ghost use Rattle.streams.specs.Ran.{Declines};
ghost use Rattle.streams.specs.Streams.{streams};

use crate::saying::{say, tell};
use crate::sink::Stream;
use crate::unserved::no_room;
use arguments::LineFault;
use std::alloc::Allocator;

/// Replies to words that give no order, and returns the status: help or the version on `writer` with 0; `refused: line`
/// with 2, and the reason on `log`; the reply for lack of memory with 3. If a write to `writer` fails, the status is 3,
/// and the reason is written to `log`, with memory of `alloc`.
pub fn decline<A: Allocator + Copy, W: Stream, L: Stream>(
    alloc: A,
    fault: &LineFault,
    writer: &mut W,
    log: &mut L,
) -> u8
    ensures { Declines fault.now (streams (W.held writer.old) (L.held log.old))
        (streams (W.held writer.new) (L.held log.new)) result }
{
    match fault {
        LineFault::Help(text) => say(alloc, writer, log, text.as_bytes(), 0),
        LineFault::Refused(why) => {
            tell(log, why.as_bytes());
            say(alloc, writer, log, b"refused: line\n", 2)
        }
        LineFault::Memory => no_room(alloc, writer, log),
    }
}
