//! The bytes that a stream takes.

ghost use Rattle.std.specs.Prelude.{◌<◌, ℕ, IfErr, IfOk, false, length, take, true};
ghost use Rattle.std.specs.Io.KnownBytes.{Appends};
ghost use Rattle.streams.specs.Streams.{KnownStream, StreamTakes};

use std::io::{self, ErrorKind, Write};

/// A stream that is written to, such as the standard output: it takes bytes one after the other, until a write fails.
pub trait Stream {
    ghost held: { Self → KnownStream };

    /// Writes the bytes. If a write fails, the stream took only a part of them, and the error says why.
    fn put(&mut self, bytes: &[u8]) -> io::Result<()>
        ensures all { IfOk result
            (λ _. StreamTakes (held self.old) (held self.new) bytes.now true) }
        ensures part { IfErr result
            (λ _. StreamTakes (held self.old) (held self.new) bytes.now false) };
}

/// Writes the bytes. If a write fails, the writer took only a part of them, and the error says why: `WriteZero` if it
/// took none of those that are left.
fn put_all<W: Write>(writer: &mut W, bytes: &[u8]) -> io::Result<()>
    ensures all { IfOk result
        (λ _. Appends (W.contents writer.old) (W.contents writer.new) bytes.now) }
    ensures part { IfErr result (λ _. (n : ℕ) × (n < length bytes.now)
        × Appends (W.contents writer.old) (W.contents writer.new) (take n bytes.now)) }
{
    if bytes.is_empty() {
        return Ok(());
    }
    let mut at = 0;
    for _turn in 0..u64::MAX {
        match writer.write(&bytes[at..]) {
            Ok(0) => return Err(io::Error::from(ErrorKind::WriteZero)),
            Ok(count) => {
                at += count;
                if at >= bytes.len() {
                    return Ok(());
                }
            }
            Err(error) => {
                if error.kind() != ErrorKind::Interrupted {
                    return Err(error);
                }
            }
        }
    }
    Err(io::Error::from(ErrorKind::Interrupted))
}

/// A writer does not say whether a write to it has failed, so for every writer one may have.
impl<W: Write> Stream for W {
    ghost held = { λ w. record { bytes = W.contents w; may_have_failed = true } };

    fn put(&mut self, bytes: &[u8]) -> io::Result<()> {
        put_all(self, bytes)
    }
}
