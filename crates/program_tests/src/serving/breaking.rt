//! Broken texts.

use std::alloc::{AllocError, Global};

/// Pseudo-random numbers, the same each time.
#[derive(Clone, Copy)]
pub struct Lot(u64);

impl Lot {
    pub fn new(seed: u64) -> Lot {
        Lot(seed)
    }

    /// The next number below a bound; 0 if the bound is 0.
    pub fn below(&mut self, bound: usize) -> usize {
        self.0 = self
            .0
            .wrapping_mul(6_364_136_223_846_793_005)
            .wrapping_add(1_442_695_040_888_963_407);
        let drawn = (self.0 >> 33) as usize;
        if bound == 0 { 0 } else { drawn % bound }
    }
}

/// Whether a byte may occur in a word of the language.
fn is_of_word(byte: u8) -> bool {
    byte.is_ascii_alphanumeric() || byte == b'_'
}

/// Where the token at a place begins and ends: a word, or one other byte.
fn token_at(text: &[u8], at: usize) -> (usize, usize) {
    let at = at.min(text.len());
    let behind = &text[at..];
    match behind.iter().position(|byte| !is_of_word(*byte)) {
        Some(0) => (at, at + 1),
        length => {
            let before = text[..at]
                .iter()
                .rev()
                .take_while(|byte| is_of_word(**byte))
                .count();
            (
                at.saturating_sub(before),
                at + length.unwrap_or(behind.len()),
            )
        }
    }
}

/// The text in three parts, of which the middle one is written several times.
fn rewritten(
    alloc: Global,
    text: &[u8],
    from: usize,
    to: usize,
    times: usize,
) -> Result<Vec<u8>, AllocError> {
    let to = to.min(text.len());
    let from = from.min(to);
    let mut broken = Vec::new(alloc);
    broken.extend_from_slice(&text[..from])?;
    for _time in 0..times {
        broken.extend_from_slice(&text[from..to])?;
        broken.push(b' ')?;
    }
    broken.extend_from_slice(&text[to..])?;
    Ok(broken)
}

/// The text with one byte changed.
fn changed(alloc: Global, text: &[u8], at: usize, byte: u8) -> Result<Vec<u8>, AllocError> {
    let mut broken = Vec::new(alloc);
    for (i, old) in text.iter().enumerate() {
        broken.push(if i == at { byte } else { *old })?;
    }
    Ok(broken)
}

/// A broken text: in turn truncated, with one byte changed, with one token doubled, with one dropped.
pub fn broken(
    alloc: Global,
    text: &[u8],
    nth: usize,
    lot: &mut Lot,
) -> Result<Vec<u8>, AllocError> {
    let at = lot.below(text.len());
    let (from, to) = token_at(text, at);
    match nth % 4 {
        0 => rewritten(alloc, text, at, text.len(), 0),
        1 => changed(alloc, text, at, u8::try_from(lot.below(256)).unwrap_or(0)),
        2 => rewritten(alloc, text, from, to, 2),
        _ => rewritten(alloc, text, from, to, 0),
    }
}
