//! The reply where there is no text to reply to: memory ran out, or a file is not read.

ghost use Rattle.std.specs.IoError.{error_kind};
ghost use Rattle.streams.specs.Served.{TellsUnread, without_memory};
ghost use Rattle.streams.specs.Streams.{Says, streams};

use crate::saying::{say, tell, tell_reason};
use crate::sink::Stream;
use refusals::{MEMORY_LINE, NO_MEMORY};
use std::alloc::Allocator;
use std::io::{self, ErrorKind};

/// Replies that memory ran out, and writes the same to `log`.
pub fn no_room<A: Allocator + Copy, W: Stream, L: Stream>(
    alloc: A,
    writer: &mut W,
    log: &mut L,
) -> u8
    ensures { Says (streams (W.held writer.old) (L.held log.old))
        (streams (W.held writer.new) (L.held log.new))
        without_memory result }
{
    tell(log, NO_MEMORY.as_bytes());
    say(alloc, writer, log, MEMORY_LINE.as_bytes(), 3)
}

/// Replies that a file cannot be opened or read, and writes the system's reason to `log`; if the error is that memory
/// ran out, it replies that instead. Returns the status: 2, or 3 if memory ran out or a write to `writer` fails.
pub fn unread<A: Allocator + Copy, W: Stream, L: Stream>(
    alloc: A,
    path: &str,
    error: &io::Error,
    writer: &mut W,
    log: &mut L,
) -> u8
    ensures { TellsUnread path.now (error_kind error.now)
        (streams (W.held writer.old) (L.held log.old))
        (streams (W.held writer.new) (L.held log.new)) result }
{
    if error.kind() == ErrorKind::OutOfMemory {
        return no_room(alloc, writer, log);
    }
    tell_reason(alloc, path, error, log);
    say(alloc, writer, log, b"refused: file\n", 2)
}
