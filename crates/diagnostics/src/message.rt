//! A message about a place of a text: where it is, what is wrong with which name, and the source line.

ghost use Rattle.std.specs.Prelude.{◌≡◌, ◌++◌, ◌-◌, ◌<◌, ◌≤◌, OnOk, codes, drop, length, map, min};
ghost use Rattle.std.specs.Prelude.{not, position};
ghost use Rattle.std.specs.Prelude.{take};
ghost use Rattle.std.specs.Fmt.{decimal};
ghost use Rattle.std.specs.String.{string_bytes};
ghost use Rattle.diagnostics.specs.Message as told;

use crate::name::push_escaped;
use crate::position::{Position, position_of};
use std::alloc::{AllocError, Allocator};

/// How much of a line is shown before a place, and how much from it on.
const BEFORE: usize = 60;

const BEHIND: usize = 40;

/// How much of a name is shown.
const NAME: usize = 40;

/// What is wrong at a place.
#[derive(Clone, Copy)]
pub enum Wrong<'a> {
    /// The word there: what the message says after it.
    Word(&'a str),
    /// The message says this of the place, and shows no word.
    Place(&'a str),
    /// The procedure whose name is there: how many places it needs with how many rounds, and how many it may have.
    Wide(u128, u8, usize),
    /// The procedure whose name is there: it has more path edges than this.
    Edges(u32),
    /// The text does not continue there as a program does.
    Unexpected,
    /// The byte there is not ASCII.
    NotAscii,
}

/// The first bytes, at most `most`.
fn first(bytes: &[u8], most: usize) -> &[u8]
    ensures { result.now ≡ take most bytes.now }
{
    if bytes.len() > most {
        &bytes[..most]
    } else {
        bytes
    }
}

/// The last bytes, at most `most`.
fn last(bytes: &[u8], most: usize) -> &[u8]
    ensures { result.now ≡ drop (length bytes.now - most) bytes.now }
{
    if bytes.len() > most {
        &bytes[bytes.len() - most..]
    } else {
        bytes
    }
}

/// Whether a byte may occur in a word of the language.
fn is_of_word(byte: u8) -> bool
    ensures { result ≡ told.is_word_byte byte }
{
    byte.is_ascii_alphanumeric() || byte == b'_'
}

/// Where the word at the beginning of some bytes ends, if more bytes follow it.
fn end_of_word(bytes: &[u8]) -> Option<usize>
    ensures { result ≡ position (λ byte. not (told.is_word_byte byte)) bytes.now }
{
    bytes.iter().position(|byte| !is_of_word(*byte))
}

/// The word at the beginning of some bytes, which may be empty.
pub fn first_word(bytes: &[u8]) -> &[u8]
    ensures { result.now ≡ told.first_word bytes.now }
{
    match end_of_word(bytes) {
        Some(end) => &bytes[..end],
        None => bytes,
    }
}

/// Whether some bytes begin with a sign of two bytes.
fn begins_long(bytes: &[u8]) -> bool
    ensures { result ≡ told.begins_long bytes.now }
{
    bytes.starts_with(b":=") || bytes.starts_with(b"=>") || bytes.starts_with(b"!=")
}

/// The sign at the beginning of some bytes: two bytes if it has so many, else the first one.
fn first_sign(bytes: &[u8]) -> &[u8]
    ensures { result.now ≡ told.first_sign bytes.now }
{
    if begins_long(bytes) {
        first(bytes, 2)
    } else {
        first(bytes, 1)
    }
}

/// Two dots if there are more bytes than are shown.
fn dots(bytes: &[u8], most: usize) -> &'static str
    ensures { result.now ≡ told.dots most bytes.now }
{
    if bytes.len() > most { ".." } else { "" }
}

/// Writes words.
fn push<A: Allocator>(message: &mut String<A>, words: &str) -> Result<(), AllocError>
    ensures { OnOk result (string_bytes message.new ≡ string_bytes message.old ++ words.now) }
{
    message.push_str(words)
}

/// How a byte of a text is shown: a tab stays, a carriage return is a blank, and any other byte that is not a printable
/// ASCII character is a question mark.
fn shown(byte: u8) -> char
    ensures is { result ≡ told.shown byte }
    ensures ascii { result < 128 }
{
    match byte {
        b'\t' | b' '..=b'~' => char::from(byte),
        b'\r' => ' ',
        _ => '?',
    }
}

/// Writes bytes of a text as they are shown.
fn push_bytes<A: Allocator>(message: &mut String<A>, bytes: &[u8]) -> Result<(), AllocError>
    ensures { OnOk result
        (string_bytes message.new ≡ string_bytes message.old ++ map told.shown bytes.now) }
{
    for byte in bytes {
        message.push(shown(*byte))?;
    }
    Ok(())
}

/// What is written under a byte: a tab under a tab, else a blank.
fn blank(byte: u8) -> char
    ensures is { result ≡ told.blank byte }
    ensures ascii { result < 128 }
{
    if byte == b'\t' { '\t' } else { ' ' }
}

/// Writes as many blanks as there are bytes; a tab stays a tab, so that the columns agree with the line above.
fn push_blanks<A: Allocator>(message: &mut String<A>, bytes: &[u8]) -> Result<(), AllocError>
    ensures { OnOk result
        (string_bytes message.new ≡ string_bytes message.old ++ map told.blank bytes.now) }
{
    for byte in bytes {
        message.push(blank(*byte))?;
    }
    Ok(())
}

/// Writes a word between quotes, and at most 40 bytes of it, with `..` if it has more.
pub fn push_name<A: Allocator>(message: &mut String<A>, name: &[u8]) -> Result<(), AllocError>
    ensures { OnOk result
        (string_bytes message.new ≡ string_bytes message.old ++ told.quoted name.now) }
{
    push(message, "`")?;
    push_bytes(message, first(name, NAME))?;
    push(message, dots(name, NAME))?;
    push(message, "`")
}

/// Writes the line of a place, as much of it as is near the place.
fn push_source<A: Allocator>(
    message: &mut String<A>,
    before: &[u8],
    behind: &[u8],
) -> Result<(), AllocError>
    ensures { OnOk result (string_bytes message.new
        ≡ string_bytes message.old ++ told.source_line before.now behind.now) }
{
    push(message, dots(before, BEFORE))?;
    push_bytes(message, last(before, BEFORE))?;
    push_bytes(message, first(behind, BEHIND))?;
    push(message, dots(behind, BEHIND))?;
    push(message, "\n")
}

/// Writes a caret under a place.
fn push_caret<A: Allocator>(message: &mut String<A>, before: &[u8]) -> Result<(), AllocError>
    ensures { OnOk result
        (string_bytes message.new ≡ string_bytes message.old ++ told.caret_line before.now) }
{
    push_blanks(message, dots(before, BEFORE).as_bytes())?;
    push_blanks(message, last(before, BEFORE))?;
    push(message, "^\n")
}

/// Writes the line and the column of an offset of a text: `LINE:COLUMN`. An offset past the text counts as its end.
pub fn push_place<A: Allocator>(
    message: &mut String<A>,
    text: &[u8],
    at: usize,
) -> Result<(), AllocError>
    ensures { OnOk result (told.WritesPlace text.now (min (length text.now) at)
        (string_bytes message.old) (string_bytes message.new)) }
{
    let place = position_of(text, text.len().min(at));
    let line = place.line;
    let column = place.column;
    write!(message, "{line}:{column}")
}

/// Writes where a place is: `FILE:LINE:COLUMN: error: `.
fn push_head<A: Allocator>(
    message: &mut String<A>,
    path: &str,
    place: &Position,
) -> Result<(), AllocError>
    ensures { OnOk result (string_bytes message.new
        ≡ string_bytes message.old ++ told.message_head path.now place.now.line place.now.column) }
{
    push_escaped(message, path)?;
    let line = place.line;
    let column = place.column;
    write!(message, ":{line}:{column}: error: ")
}

/// Writes how many places a procedure needs, and how many it may have.
fn push_width<A: Allocator>(
    message: &mut String<A>,
    places: u128,
    rounds: u8,
    most: usize,
) -> Result<(), AllocError>
    ensures { OnOk result
        (string_bytes message.new ≡ string_bytes message.old ++ told.needs places rounds most) }
{
    write!(
        message,
        " needs {places} places with --rounds {rounds}, and {most} is the limit\n"
    )
}

/// Writes how many path edges are exceeded.
fn push_edges<A: Allocator>(message: &mut String<A>, edges: u32) -> Result<(), AllocError>
    ensures { OnOk result
        (string_bytes message.new ≡ string_bytes message.old ++ told.exceeds edges) }
{
    write!(message, " has more than {edges} path edges\n")
}

/// Writes the number of a byte.
fn push_number<A: Allocator>(message: &mut String<A>, byte: u8) -> Result<(), AllocError>
    ensures { OnOk result
        (string_bytes message.new ≡ string_bytes message.old ++ (codes "byte " ++ decimal byte)) }
{
    write!(message, "byte {byte}")
}

/// Writes what comes first in the rest of a line that does not begin with a word: a sign, the number of another byte,
/// or that nothing more follows.
fn push_sign<A: Allocator>(message: &mut String<A>, rest: &[u8]) -> Result<(), AllocError>
    ensures { OnOk result
        (string_bytes message.new ≡ string_bytes message.old ++ told.sign_or_number rest.now) }
{
    match rest.first() {
        Some(b'!'..=b'~') => push_name(message, first_sign(rest)),
        Some(byte) => push_number(message, *byte),
        None => push(message, "end of the text"),
    }
}

/// Writes what comes first in the rest of a line.
fn push_first<A: Allocator>(message: &mut String<A>, rest: &[u8]) -> Result<(), AllocError>
    ensures { OnOk result
        (string_bytes message.new ≡ string_bytes message.old ++ told.first_item rest.now) }
{
    let word = first_word(rest);
    if word.is_empty() {
        push_sign(message, rest)
    } else {
        push_name(message, word)
    }
}

/// Writes what is wrong where the rest of a line begins.
fn push_wrong<A: Allocator>(
    message: &mut String<A>,
    rest: &[u8],
    wrong: Wrong<'_>,
) -> Result<(), AllocError>
    ensures { OnOk result (string_bytes message.new
        ≡ string_bytes message.old ++ told.of_fault wrong.entry rest.now) }
{
    match wrong {
        Wrong::Word(what) => {
            push_name(message, first_word(rest))?;
            push(message, what)
        }
        Wrong::Place(what) => push(message, what),
        Wrong::Wide(places, rounds, most) => {
            push_name(message, first_word(rest))?;
            push_width(message, places, rounds, most)
        }
        Wrong::Edges(edges) => {
            push_name(message, first_word(rest))?;
            push_edges(message, edges)
        }
        Wrong::Unexpected => {
            push(message, "unexpected ")?;
            push_first(message, rest)?;
            push(message, "\n")
        }
        Wrong::NotAscii => {
            push_first(message, rest)?;
            push(message, " is not ASCII\n")
        }
    }
}

/// Writes where a byte of a text is, what is wrong there, and its line.
fn at_byte<A: Allocator>(
    message: &mut String<A>,
    path: &str,
    text: &[u8],
    at: usize,
    wrong: Wrong<'_>,
) -> Result<(), AllocError>
    requires { at ≤ length text.now }
    ensures { OnOk result (told.Locates path.now text.now at (told.of_fault wrong.entry)
        (string_bytes message.old) (string_bytes message.new)) }
{
    let place = position_of(text, at);
    push_head(message, path, &place)?;
    push_wrong(message, place.behind, wrong)?;
    push_source(message, place.before, place.behind)?;
    push_caret(message, place.before)
}

/// Writes where an offset of a text is, what is wrong there, and its line. An offset past the text counts as its end.
pub fn at_offset<A: Allocator>(
    message: &mut String<A>,
    path: &str,
    text: &[u8],
    at: u32,
    wrong: Wrong<'_>,
) -> Result<(), AllocError>
    ensures { OnOk result
        (told.Locates path.now text.now (min (length text.now) at) (told.of_fault wrong.entry)
        (string_bytes message.old) (string_bytes message.new)) }
{
    at_byte(message, path, text, text.len().min(at as usize), wrong)
}

/// Where the first byte is that is not ASCII.
fn first_foreign(text: &[u8]) -> Option<usize>
    ensures { result ≡ told.first_foreign text.now }
{
    text.iter().position(|byte| *byte >= 128)
}

/// Writes that a byte of the text is not ASCII, without a place.
fn push_some_foreign<A: Allocator>(message: &mut String<A>, path: &str) -> Result<(), AllocError>
    ensures { OnOk result
        (string_bytes message.new ≡ string_bytes message.old ++ told.some_foreign path.now) }
{
    push_escaped(message, path)?;
    push(message, ": error: a byte is not ASCII\n")
}

/// Writes that a byte of the text is not ASCII, and where the first one is.
pub fn not_ascii<A: Allocator>(
    message: &mut String<A>,
    path: &str,
    text: &[u8],
) -> Result<(), AllocError>
    ensures { OnOk result (told.LocatesForeign path.now text.now (string_bytes message.old)
        (string_bytes message.new)) }
{
    match first_foreign(text) {
        Some(at) => at_byte(message, path, text, at, Wrong::NotAscii),
        None => push_some_foreign(message, path),
    }
}
