//! Runs of the program, and of `serve`.

mod breaking;
mod broken;
mod kinds;
mod memory;
mod refused;
mod test_streams;

use crate::escapes::bytes_of;
use crate::serving::broken::count;
use crate::serving::memory::served;
use crate::serving::refused::in_turn;
use crate::serving::test_streams::{Manner, SOUND, Sink, Source};
use cases::words_behind;
use cli::{Order, ended, order, serve_telling};
use std::alloc::{AllocError, Global};
use std::fs;
use std::io::{self, ErrorKind, Read, Write};
use std::process::ExitCode;
use std::rt::Files;
use std::sync::Wait;
use std::thread::Threads;

/// The names of the files that rows of `file` can open, each of which has the text of the row. All but the first have
/// control characters.
const FILES: &[&str] = &[
    "a.bp",
    "a\nb.bp",
    "\u{1b}[1A\u{7f}.bp",
    "\t\r\0\u{9b}\\n\u{e9}.bp",
];

/// One more byte than a text may have.
const LONG: usize = 65_537;

/// Writes the file `long.bp`.
pub fn write_long<R: Files + AllocGlobal>(rt: &R) -> io::Result<()> {
    let text = padded(rt.alloc(), "t() begin skip; end thread t;", LONG)?;
    fs::write(rt, "long.bp", text)
}

/// A text and blanks after it, to a given number of bytes.
fn padded(alloc: Global, text: &str, length: usize) -> Result<Vec<u8>, AllocError> {
    let mut bytes = Vec::new(alloc);
    bytes.extend_from_slice(text.as_bytes())?;
    bytes.resize(length, b' ')?;
    Ok(bytes)
}

/// Prints the result of a case, asked in one of the ways of the table in `main.rt`.
pub fn answered<R: Files + Print + AllocGlobal + Wait + Threads + Sync>(
    rt: &R,
    how: &str,
    rest: &str,
) -> io::Result<()> {
    let (line, text) = rest.split_once(" | ").unwrap_or((rest, ""));
    let words = words_of(rt.alloc(), line);
    match how {
        "program" => print_run(
            rt,
            words.map_err(io::Error::from),
            |path: &str| fs::open(rt, path),
        ),
        "file" => {
            let text = bytes_of(rt.alloc(), text)?;
            print_run(
                rt,
                words.map_err(io::Error::from),
                |path: &str| opened(text.as_slice(), path),
            )
        }
        "a word is no UTF-8" => print_unread(rt, ErrorKind::InvalidData),
        "no memory for the words" => print_unread(rt, ErrorKind::OutOfMemory),
        _ => match order(rt.alloc(), words?.as_slice()) {
            Ok((order, _file)) => to_text(rt, how, text, order),
            Err(_) => rt.print("no order\n"),
        },
    }
}

/// The words of a line after the program's name, in which `{N}` stands for the character with the number N.
fn words_of(alloc: Global, line: &str) -> Result<Vec<String>, AllocError> {
    let mut words = Vec::new(alloc);
    for word in words_behind(alloc, "bebopk", line)?.iter() {
        words.push(spelled(alloc, word.as_str())?)?;
    }
    Ok(words)
}

/// The word, each `{N}` in it replaced by the character with the number N.
fn spelled(alloc: Global, word: &str) -> Result<String, AllocError> {
    let mut spelled = String::new(alloc);
    for piece in word.split('{') {
        match piece.split_once('}') {
            Some((number, behind)) => {
                let number = number.parse::<u32>().unwrap_or(0);
                spelled.push(char::from_u32(number).unwrap_or(' '))?;
                spelled.push_str(behind)?;
            }
            None => spelled.push_str(piece)?,
        }
    }
    Ok(spelled)
}

/// One of `FILES`, which has this text.
fn opened<'a>(text: &'a [u8], path: &str) -> io::Result<&'a [u8]> {
    if FILES.contains(&path) {
        Ok(text)
    } else {
        Err(io::Error::from(ErrorKind::NotFound))
    }
}

/// The number of an exit status.
fn number_of(status: ExitCode) -> u8 {
    (0..u8::MAX)
        .find(|number| ExitCode::from(*number) == status)
        .unwrap_or(u8::MAX)
}

/// Prints what the program does for words: its status, and what the standard output and the standard error took.
fn print_run<R, F, O>(rt: &R, words: io::Result<Vec<String>>, opener: O) -> io::Result<()>
where
    R: Print + AllocGlobal + Wait + Threads + Sync,
    F: Read + Drop,
    O: FnOnce(&str) -> io::Result<F>,
    requires { O.IsAlwaysCallable opener }
{
    let mut written = Vec::new(rt.alloc());
    let mut log = Vec::new(rt.alloc());
    let status = ended(rt, || words, opener, &mut written, &mut log);
    print_both(rt, number_of(status), written.as_slice(), log.as_slice())
}

/// Prints what the program does where the system does not pass on the words.
fn print_unread<R: Print + AllocGlobal + Wait + Threads + Sync>(
    rt: &R,
    kind: ErrorKind,
) -> io::Result<()> {
    let opener = |path: &str| opened(b"", path);
    print_run(rt, Err(io::Error::from(kind)), opener)
}

/// Prints the result of a text, asked in one of the ways of the table in `main.rt`.
fn to_text<R: Files + Print + AllocGlobal + Wait + Threads + Sync>(
    rt: &R,
    how: &str,
    text: &str,
    order: Order,
) -> io::Result<()> {
    let (how, most) = how.rsplit_once(' ').unwrap_or((how, ""));
    let most = most.parse::<usize>().unwrap_or(0);
    let few = Manner {
        most: 1,
        interrupts: true,
        ..SOUND
    };
    let fails = Manner {
        left: most,
        ..SOUND
    };
    match how {
        "broken" => count(rt, text, most, order),
        "serve a text padded to" => print_served(
            rt,
            padded(rt.alloc(), text, most)?.as_slice(),
            order,
        ),
        "serve with each allocation" => in_turn(rt, text.as_bytes(), order),
        "serve one byte a" => print_streamed(rt, text, order, few, few),
        "serve with a reader that fails after" => print_streamed(rt, text, order, fails, SOUND),
        "serve with a writer that fails after" => print_streamed(rt, text, order, SOUND, fails),
        _ => print_served(rt, text.as_bytes(), order),
    }
}

/// Prints what `serve` does from memory to memory.
fn print_served<R: Print + AllocGlobal + Wait + Threads + Sync>(
    rt: &R,
    text: &[u8],
    order: Order,
) -> io::Result<()> {
    let (status, written) = served(rt, rt.alloc(), text, order);
    print_reply(rt, status, written.as_slice())
}

/// Prints what `serve_telling` does with a reader and a writer that behave in these ways.
fn print_streamed<R: Print + AllocGlobal + Wait + Threads + Sync>(
    rt: &R,
    text: &str,
    order: Order,
    reading: Manner,
    writing: Manner,
) -> io::Result<()> {
    let mut source = Source::new(text.as_bytes(), reading);
    let mut sink = Sink::new(Vec::new(rt.alloc()), writing);
    let mut log = Vec::new(rt.alloc());
    let status = serve_telling(rt, "a.bp", &mut source, order, &mut sink, &mut log);
    print_both(rt, status, sink.taken(), log.as_slice())
}

/// Prints a status, what was written, and what the standard error took.
fn print_both<R: Print>(rt: &R, status: u8, written: &[u8], log: &[u8]) -> io::Result<()> {
    print_reply(rt, status, written)?;
    if log.is_empty() {
        return rt.print("standard error: nothing\n");
    }
    rt.print("standard error:\n")?;
    io::writer(rt).write_all(log)
}

/// Prints a status and what was written, which may lack its newline.
pub fn print_reply<R: Print>(rt: &R, status: u8, written: &[u8]) -> io::Result<()> {
    print!(rt; "{status} ")?;
    io::writer(rt).write_all(written)?;
    if written.ends_with(b"\n") {
        Ok(())
    } else {
        rt.print("\n")
    }
}
