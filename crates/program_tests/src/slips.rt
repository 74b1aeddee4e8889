//! Slips, and what standard error says about them.

use crate::escapes::bytes_of;
use cases::words_behind;
use cli::ended;
use std::io::{self, ErrorKind, Write};
use std::sync::Wait;
use std::thread::Threads;

/// The words for a slip that names none.
pub const WORDS: &str = "check --rounds 1 a.bp";

/// The file of these bytes, under its one name.
fn opened<'a>(text: &'a [u8], path: &str) -> io::Result<&'a [u8]> {
    if path == "a.bp" {
        Ok(text)
    } else {
        Err(io::Error::from(ErrorKind::NotFound))
    }
}

/// Prints what standard error took for these words and this text.
pub fn print_slip<R: Print + AllocGlobal + Wait + Threads + Sync>(
    rt: &R,
    words: &str,
    text: &str,
) -> io::Result<()> {
    print_case(rt, words, text, true)
}

/// Prints what standard output took for a text that was mended.
pub fn print_mended<R: Print + AllocGlobal + Wait + Threads + Sync>(
    rt: &R,
    text: &str,
) -> io::Result<()> {
    print_case(rt, WORDS, text, false)
}

/// Prints what standard error took for these words and this text, or else what standard output took.
fn print_case<R: Print + AllocGlobal + Wait + Threads + Sync>(
    rt: &R,
    words: &str,
    text: &str,
    of_error: bool,
) -> io::Result<()> {
    let text = bytes_of(rt.alloc(), text)?;
    let words = words_behind(rt.alloc(), "bebopk", words).map_err(io::Error::from);
    let mut written = Vec::new(rt.alloc());
    let mut log = Vec::new(rt.alloc());
    let opener = |path: &str| opened(text.as_slice(), path);
    let _status = ended(rt, || words, opener, &mut written, &mut log);
    let shown = if of_error {
        log.as_slice()
    } else {
        written.as_slice()
    };
    io::writer(rt).write_all(shown)
}
