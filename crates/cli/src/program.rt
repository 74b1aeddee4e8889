//! The program, except for what the system hands to it: the words, the files and the standard streams.

ghost use Rattle.std.specs.Prelude.{◌≤◌, map};
ghost use Rattle.std.specs.Fn.{FnOnceReturnsAt};
ghost use Rattle.std.specs.Process.{exit_status};
ghost use Rattle.std.specs.String.{string_bytes};
ghost use Rattle.cli.specs.Ended.{EndsAnswered, ProgramEnds};
ghost use Rattle.streams.specs.Streams.{streams};

use crate::running::run;
use std::io::{self, Read};
use std::process::ExitCode;
use std::sync::Wait;
use std::thread::Threads;
use streams::{Stream, not_passed};

/// The program: does what the words of the command line ask for, with the file that `opener` returns for the path among
/// them, and returns the exit status.
pub fn ended<X, G, F, O, W, L>(rt: &X, words: G, opener: O, writer: &mut W, log: &mut L) -> ExitCode
where
    X: AllocGlobal + Wait + Threads + Sync,
    G: FnOnce() -> io::Result<Vec<String>>,
    F: Read + Drop,
    O: FnOnce(&str) -> io::Result<F>,
    W: Stream,
    L: Stream,
    requires words { G.IsAlwaysCallable words }
    requires files { O.IsAlwaysCallable opener }
    ensures ends { ProgramEnds (G.post words) (λ v. map string_bytes v.items)
        (FnOnceReturnsAt O.FnOnce opener) F.remaining (streams (W.held writer.old) (L.held log.old))
        (streams (W.held writer.new) (L.held log.new)) (exit_status result) }
    ensures answers { exit_status result ≤ 1
        → EndsAnswered (G.post words) (λ v. map string_bytes v.items)
        (FnOnceReturnsAt O.FnOnce opener) F.remaining (streams (W.held writer.old) (L.held log.old))
        (streams (W.held writer.new) (L.held log.new)) (exit_status result) }
    ensures status { exit_status result ≤ 3 }
{
    match words() {
        Ok(words) => ExitCode::from(run(rt, words.as_slice(), opener, writer, log)),
        Err(error) => ExitCode::from(not_passed(rt.alloc(), &error, writer, log)),
    }
}
