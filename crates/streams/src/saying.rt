//! What is written to the standard output and the standard error.

ghost use Rattle.std.specs.Prelude.{◌≡◌, ℕ, IfOk, List};
ghost use Rattle.std.specs.String.{string_bytes};
ghost use Rattle.streams.specs.Streams.{Logs, Writes, streams};
ghost use Rattle.streams.specs.Told.{IsReason, file_hint};

use crate::sink::Stream;
use diagnostics::push_escaped;
use refusals::NO_MEMORY;
use std::alloc::{AllocError, Allocator};
use std::io;

/// Writes a message. If a write fails, only a beginning of it is written, and that has no other effect.
pub fn tell<L: Stream>(log: &mut L, message: &[u8])
    ensures { Logs (L.held log.old) (L.held log.new) message.now }
{
    let _ = log.put(message);
}

/// What helps if the name of a file is `-`.
const STDIN: &str = "hint: for the standard input write `/dev/stdin`\n";

/// What helps if a file of this name cannot be read, if something does.
fn file_hint(name: &str) -> &'static str
    ensures { result.now ≡ file_hint name.now }
{
    if name == "-" { STDIN } else { "" }
}

/// The line that names what is read or written, with control characters as escapes, and says why the system refuses it;
/// and the line that helps, if there is one.
fn reason<A: Allocator + Copy>(
    alloc: A,
    name: &str,
    error: &io::Error,
) -> Result<String<A>, AllocError>
    ensures { IfOk result (λ line. IsReason name.now (string_bytes line)) }
{
    let words = format!(in alloc; "{error}")?;
    let mut line = String::new(alloc);
    push_escaped(&mut line, name)?;
    write!(line, ": {words}\n")?;
    line.push_str(file_hint(name))?;
    Ok(line)
}

/// Writes to `log` why the system refuses to read or to write, or that memory ran out for this message.
pub fn tell_reason<A: Allocator + Copy, L: Stream>(
    alloc: A,
    name: &str,
    error: &io::Error,
    log: &mut L,
)
    ensures { (message : List ℕ) × IsReason name.now message
        × Logs (L.held log.old) (L.held log.new) message }
{
    match reason(alloc, name, error) {
        Ok(line) => tell(log, line.as_bytes()),
        Err(_) => tell(log, NO_MEMORY.as_bytes()),
    }
}

/// Writes the bytes of a reply, and returns its status. If a write fails, it writes the reason to `log`, and returns 3.
pub fn say<A: Allocator + Copy, W: Stream, L: Stream>(
    alloc: A,
    writer: &mut W,
    log: &mut L,
    bytes: &[u8],
    status: u8,
) -> u8
    ensures { Writes (streams (W.held writer.old) (L.held log.old))
        (streams (W.held writer.new) (L.held log.new))
        bytes.now status result }
{
    match writer.put(bytes) {
        Ok(()) => status,
        Err(error) => {
            tell_reason(alloc, "standard output", &error, log);
            3
        }
    }
}
