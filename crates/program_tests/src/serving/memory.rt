//! `serve` from memory to memory, where what is read and written is known.

ghost use Rattle.std.specs.Prelude.{◌≤◌, vec_items};
ghost use Rattle.cli.specs.Replies.{Replies};

use cli::{Order, serve};
use std::alloc::Global;
use std::io;
use std::sync::Wait;
use std::thread::Threads;

/// The status of the reply to a text, and the bytes that are written. A status of 0 or 1 comes with exactly the reply
/// to the text.
pub fn served<X: Alloc + Wait + Threads + Sync>(
    rt: &X,
    alloc: Global,
    text: &[u8],
    order: Order,
) -> (u8, Vec<u8>)
where
    X::A: Copy + Send + Sync,
    ensures { result.0 ≤ 1 → Replies text.now order (vec_items result.1) result.0 }
{
    let mut rest = text;
    let mut written = Vec::new(alloc);
    let status = serve(rt, &mut rest, &mut written, order);
    (status, written)
}
