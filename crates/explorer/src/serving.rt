//! From a reader and an order to the standard streams and a status.

ghost use Rattle.std.specs.Prelude.{◌≤◌, ℕ, List, []};
ghost use Rattle.explorer.specs.Served.{Answered, Serves};
ghost use Rattle.explorer.specs.Told.{IsMessage};
ghost use Rattle.streams.specs.Streams.{KnownStream, Logs, streams};

use crate::answers::answer;
use crate::explanation::explain;
use crate::refusal::Refusal;
use explore_line::Order;
use refusals::NO_MEMORY;
use std::io::{self, Read};
use streams::{Stream, say, tell, text_of, unread};

/// Writes to `log` why a text gets no verdict, if it gets none, or that memory ran out for this message.
fn tell_why<X: Alloc, L: Stream>(
    rt: &X,
    path: &str,
    text: &[u8],
    order: Order,
    refusal: &Option<Refusal>,
    log: &mut L,
)
where
    X::A: Copy,
    ensures { (message : List ℕ) × IsMessage path.now text.now order refusal.now message
        × Logs (L.held log.old) (L.held log.new) message }
{
    let Some(refusal) = refusal else {
        return;
    };
    let mut message = String::new(rt.alloc());
    match explain(rt.alloc(), &mut message, path, text, order, refusal) {
        Ok(()) => tell(log, message.as_bytes()),
        Err(_) => tell(log, NO_MEMORY.as_bytes()),
    }
}

/// `serve` with the name of what is read, and with a stream to which it writes why there is no verdict, as a compiler
/// does: what `explain` says about a refused text, and the system's reason if reading fails, or if a write to `writer`
/// does. A failed write to that stream changes neither the reply nor the status.
pub fn serve_telling<X: Alloc, R: Read, W: Stream, L: Stream>(
    rt: &X,
    path: &str,
    reader: &mut R,
    order: Order,
    writer: &mut W,
    log: &mut L,
) -> u8
where
    X::A: Copy,
    ensures serves { Serves path.now order (R.remaining reader.old) (R.remaining reader.new)
        (streams (W.held writer.old) (L.held log.old))
        (streams (W.held writer.new) (L.held log.new)) result }
    ensures answers { result ≤ 1 → Answered order (R.remaining reader.old) (R.remaining reader.new)
        (streams (W.held writer.old) (L.held log.old))
        (streams (W.held writer.new) (L.held log.new)) result }
    ensures status { result ≤ 3 }
{
    let text = match text_of(rt.alloc(), reader) {
        Ok(text) => text,
        Err(error) => return unread(rt.alloc(), path, &error, writer, log),
    };
    let text = text.as_slice();
    let reply = answer(rt.alloc(), text, order);
    tell_why(rt, path, text, order, &reply.refusal, log);
    say(
        rt.alloc(),
        writer,
        log,
        reply.bytes.as_slice(),
        reply.status,
    )
}

/// Reads a text, writes the reply to it and returns the status.
///
/// It reads to the end, or 65,537 bytes if there are more, which are refused as too long. If the memory for them is
/// refused, it writes the reply for lack of memory and returns 3; after a failed read it writes the line
/// `refused: file` and returns 2; after a failed write it returns 3. A read or a write that a signal interrupts is made
/// again. If it returns 0 or 1, it read all that the reader had, and wrote exactly the bytes that `answer` promises for
/// that, once.
pub fn serve<X: Alloc, R: Read, W: Stream>(
    rt: &X,
    reader: &mut R,
    writer: &mut W,
    order: Order,
) -> u8
where
    X::A: Copy,
    ensures serves { (log : KnownStream × KnownStream)
        × Serves [] order (R.remaining reader.old) (R.remaining reader.new)
        (streams (W.held writer.old) log.0) (streams (W.held writer.new) log.1) result }
    ensures answers { result ≤ 1
        → (log : KnownStream × KnownStream)
        × Answered order (R.remaining reader.old) (R.remaining reader.new)
        (streams (W.held writer.old) log.0) (streams (W.held writer.new) log.1) result }
    ensures status { result ≤ 3 }
{
    serve_telling(rt, "", reader, order, writer, &mut io::sink())
}
