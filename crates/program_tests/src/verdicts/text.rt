//! Texts with a shorthand for what is long or no character.

use std::alloc::{AllocError, Global};
use std::str;

/// The bytes of a text: `{64*!}` stands for `!` 64 times, `{3,g}` for `g0,g1,g2`, and `{200}` for the byte 200.
pub fn bytes_of(alloc: Global, text: &str) -> Result<Vec<u8>, AllocError> {
    let mut bytes = Vec::new(alloc);
    for piece in text.split('{') {
        match piece.split_once('}') {
            Some((inside, behind)) => {
                put(alloc, &mut bytes, inside)?;
                bytes.extend_from_slice(behind.as_bytes())?;
            }
            None => bytes.extend_from_slice(piece.as_bytes())?,
        }
    }
    Ok(bytes)
}

/// The name of a file with the same shorthand; empty if that is not UTF-8.
pub fn name_of(alloc: Global, word: &str) -> Result<String, AllocError> {
    let bytes = bytes_of(alloc, word)?;
    String::from_str(alloc, str::from_utf8(bytes.as_slice()).unwrap_or(""))
}

/// Puts what stands for the inside of two braces.
fn put(alloc: Global, bytes: &mut Vec<u8>, inside: &str) -> Result<(), AllocError> {
    if let Some((count, part)) = inside.split_once('*') {
        for _nth in 0..count.parse::<u32>().unwrap_or(0) {
            bytes.extend_from_slice(part.as_bytes())?;
        }
        return Ok(());
    }
    match inside.split_once(',') {
        Some((count, name)) => put_names(alloc, bytes, count.parse::<u32>().unwrap_or(0), name),
        None => {
            bytes.push(inside.parse::<u8>().unwrap_or(0))?;
            Ok(())
        }
    }
}

/// Puts a name several times, each with its number, with commas between.
fn put_names(alloc: Global, bytes: &mut Vec<u8>, count: u32, name: &str) -> Result<(), AllocError> {
    for nth in 0..count {
        if nth > 0 {
            bytes.push(b',')?;
        }
        let name = format!(in alloc; "{name}{nth}")?;
        bytes.extend_from_slice(name.as_bytes())?;
    }
    Ok(())
}
