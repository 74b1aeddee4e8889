//! Texts with escapes.

use std::alloc::{AllocError, Global};

/// The value of a hexadecimal digit; 0 for another byte.
fn digit(byte: u8) -> u8 {
    match byte {
        b'0'..=b'9' => byte - b'0',
        b'a'..=b'f' => byte - b'a' + 10,
        _ => 0,
    }
}

/// The byte that an escape stands for, and how many bytes follow the backslash; `None` if no escape begins there.
fn escape(behind: &[u8]) -> Option<(u8, usize)> {
    match behind {
        [b'n', ..] => Some((b'\n', 1)),
        [b'r', ..] => Some((b'\r', 1)),
        [b't', ..] => Some((b'\t', 1)),
        [b'x', high, low, ..] => Some((digit(*high).wrapping_mul(16).wrapping_add(digit(*low)), 3)),
        _ => None,
    }
}

/// The bytes that a text with escapes stands for.
pub fn bytes_of(alloc: Global, text: &str) -> Result<Vec<u8>, AllocError> {
    let mut bytes = Vec::new(alloc);
    let mut skipped = 0;
    let all = text.as_bytes();
    for (at, byte) in all.iter().enumerate() {
        if skipped > 0 {
            skipped -= 1;
            continue;
        }
        let found = if *byte == b'\\' {
            escape(&all[at + 1..])
        } else {
            None
        };
        match found {
            Some((meant, length)) => {
                bytes.push(meant)?;
                skipped = length;
            }
            None => bytes.push(*byte)?,
        }
    }
    Ok(bytes)
}
