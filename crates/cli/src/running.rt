//! From the words of the command line to the standard streams and a status.

ghost use Rattle.std.specs.Prelude.{◌≤◌, map};
ghost use Rattle.std.specs.Fn.{FnOnceReturnsAt};
ghost use Rattle.std.specs.String.{string_bytes};
ghost use Rattle.cli.specs.Ran.{AnswersWords, RunsWords};
ghost use Rattle.streams.specs.Streams.{streams};

use crate::serving::serve_telling;
use command_line::order;
use std::io::{self, Read};
use std::sync::Wait;
use std::thread::Threads;
use streams::{Stream, decline, unread};

/// Does what the words of the command line ask for, the program's own name first. The file that they name is what
/// `opener` returns for its path. The reply to it goes to `writer`, and the reason why there is no verdict to `log`.
/// The status is that of `decline` if the words give no order, and otherwise that of `serve`, for which a file that is
/// not opened counts as one that can't be read.
pub fn run<X, F, O, W, L>(rt: &X, words: &[String], opener: O, writer: &mut W, log: &mut L) -> u8
where
    X: AllocGlobal + Wait + Threads + Sync,
    F: Read + Drop,
    O: FnOnce(&str) -> io::Result<F>,
    W: Stream,
    L: Stream,
    requires { O.IsAlwaysCallable opener }
    ensures runs { RunsWords (FnOnceReturnsAt O.FnOnce opener) F.remaining
        (map string_bytes words.now)
        (streams (W.held writer.old) (L.held log.old))
        (streams (W.held writer.new) (L.held log.new)) result }
    ensures answers { result ≤ 1
        → AnswersWords (FnOnceReturnsAt O.FnOnce opener) F.remaining (map string_bytes words.now)
        (streams (W.held writer.old) (L.held log.old))
        (streams (W.held writer.new) (L.held log.new)) result }
    ensures status { result ≤ 3 }
{
    let (order, path) = match order(rt.alloc(), words) {
        Ok(found) => found,
        Err(fault) => return decline(rt.alloc(), &fault, writer, log),
    };
    let path = path.as_str();
    match opener(path) {
        Ok(mut file) => serve_telling(rt, path, &mut file, order, writer, log),
        Err(error) => unread(rt.alloc(), path, &error, writer, log),
    }
}
