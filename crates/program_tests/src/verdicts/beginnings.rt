//! Each beginning of a text.

use cli::{Order, Reply, answer};
use std::alloc::Global;
use std::io;
use std::sync::Wait;
use std::thread::Threads;

/// What a reply says, its offset left out.
#[derive(Clone, Copy, Debug, PartialEq, Eq)]
enum Kind {
    Safe,
    Unsafe,
    Syntax,
    Other,
}

/// What a reply says.
fn kind_of(reply: &Reply<Global>) -> Kind {
    let bytes = reply.bytes.as_slice();
    match reply.status {
        0 if bytes == b"safe\n".as_slice() => Kind::Safe,
        1 if bytes == b"unsafe\n".as_slice() => Kind::Unsafe,
        2 if bytes.starts_with(b"refused: 3 syntax at ") => Kind::Syntax,
        _ => Kind::Other,
    }
}

/// Prints for how many beginnings in turn, from the empty one on, the answer says the same.
pub fn beginnings<R: Print + AllocGlobal + Wait + Threads + Sync>(
    rt: &R,
    text: &[u8],
    order: Order,
) -> io::Result<()> {
    let mut kind = Kind::Other;
    for length in 0..text.len() {
        let found = kind_of(&answer(rt, &text[..length], order));
        if found != kind {
            println!(rt; "from {length} on: {found:?}")?;
        }
        kind = found;
    }
    Ok(())
}
