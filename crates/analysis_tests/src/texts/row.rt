//! The spelling of a case's text in one line.
//!
//! `\n`, `\t`, `\r` and `\v` are a line feed, a tab, a carriage return and a vertical tab, `\e` is the two bytes of
//! `é` and `\o` one byte of 200; `\64{..}` is 64 times what is between the braces. Any other byte stands for itself.

use std::alloc::{AllocError, Allocator};

/// The byte or bytes of an escape of one letter.
fn escape(letter: char) -> Option<&'static [u8]> {
    match letter {
        'n' => Some(b"\n"),
        't' => Some(b"\t"),
        'r' => Some(b"\r"),
        'v' => Some(b"\x0b"),
        'e' => Some(b"\xc3\xa9"),
        'o' => Some(b"\xc8"),
        _ => None,
    }
}

/// What follows a `\`: some bytes, how often they are spelled, and the text after them.
fn spelled(part: &str) -> (&[u8], u32, &str) {
    let mut letters = part.chars();
    if let Some(bytes) = letters.next().and_then(escape) {
        return (bytes, 1, letters.as_str());
    }
    if let Some((count, others)) = part.split_once('{')
        && let Some((piece, behind)) = others.split_once('}')
    {
        return (piece.as_bytes(), count.parse().unwrap_or(0), behind);
    }
    (b"\\", 1, part)
}

/// Appends the bytes of what follows a `\` to the others.
fn push_spelled<A: Allocator>(out: &mut Vec<u8, A>, part: &str) -> Result<(), AllocError> {
    let (bytes, count, behind) = spelled(part);
    for _ in 0..count {
        out.extend_from_slice(bytes)?;
    }
    out.extend_from_slice(behind.as_bytes())
}

/// Appends the bytes that a row spells to the others.
fn push_row<A: Allocator>(out: &mut Vec<u8, A>, row: &str) -> Result<(), AllocError> {
    let Some((front, parts)) = row.split_once('\\') else {
        return out.extend_from_slice(row.as_bytes());
    };
    out.extend_from_slice(front.as_bytes())?;
    for part in parts.split('\\') {
        push_spelled(out, part)?;
    }
    Ok(())
}

/// The bytes that a row spells.
pub fn unescaped<A: Allocator>(alloc: A, row: &str) -> Result<Vec<u8, A>, AllocError> {
    let mut out = Vec::new(alloc);
    push_row(&mut out, row)?;
    Ok(out)
}

/// The text in one line: `\n` for each line feed.
pub fn in_one_line<A: Allocator>(alloc: A, text: &str) -> Result<String<A>, AllocError> {
    text.replace(alloc, '\n', "\\n")
}
