//! The bytes of a reader, up to one more than a text may have.

ghost use Rattle.std.specs.Prelude.{◌≡◌, ◌≤◌, OnErr, IfOk, length, take, vec_items};
ghost use Rattle.streams.specs.Served.{GavePart, Gave, most_read};

use std::alloc::Allocator;
use std::io::{self, ErrorKind, Read};
use tokens::MOST_BYTES;

/// One byte more than a text may have, so that a longer one is recognized.
const MOST: usize = MOST_BYTES + 1;

/// Reads to the end, or until no room is left, and returns how many bytes were read.
fn fill<R: Read>(reader: &mut R, room: &mut [u8]) -> io::Result<usize>
    ensures within { IfOk result (λ n. n ≤ length room.new) }
    ensures gave { IfOk result
        (λ n. Gave (length room.old) (R.remaining reader.old) (R.remaining reader.new)
        (take n room.new)) }
    ensures part { OnErr result
        (GavePart (length room.old) (R.remaining reader.old) (R.remaining reader.new)) }
{
    let mut filled = 0;
    for _turn in 0..u64::MAX {
        if filled >= room.len() {
            break;
        }
        match reader.read(&mut room[filled..]) {
            Ok(0) => return Ok(filled),
            Ok(count) => filled += count,
            Err(error) => {
                if error.kind() != ErrorKind::Interrupted {
                    return Err(error);
                }
            }
        }
    }
    if filled < room.len() {
        return Err(io::Error::from(ErrorKind::TimedOut));
    }
    Ok(filled)
}

/// Reads to the end, or as many bytes as show that they are too many for a text.
pub fn text_of<R: Read, A: Allocator>(alloc: A, reader: &mut R) -> io::Result<Vec<u8, A>>
    ensures gave { IfOk result
        (λ text. Gave most_read (R.remaining reader.old) (R.remaining reader.new)
        (vec_items text)) }
    ensures part { OnErr result
        (GavePart most_read (R.remaining reader.old) (R.remaining reader.new)) }
{
    let mut text = Vec::new(alloc);
    text.resize(MOST, 0)?;
    let filled = fill(reader, text.as_mut_slice())?;
    text.truncate(filled);
    Ok(text)
}
