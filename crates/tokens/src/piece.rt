//! What is at the front of a text: a gap, a token, or neither.

ghost use Rattle.std.specs.Prelude.{◌≡◌, ◌<◌, length};
ghost use Rattle.std.specs.List.{prefix_len};
ghost use Rattle.std.specs.Str.{IsAscii};
ghost use Rattle.tokens.specs.Cuts.{is_blank, is_in_line};
ghost use Rattle.tokens.specs.Piece.{StandsInFront};
ghost use Rattle.tokens.specs.Spelling.{is_word_byte};

use crate::vocabulary::Kind;
use crate::words::{sign_at_front, word_kind};

/// The front of a text.
#[derive(Clone, Copy)]
pub(crate) enum Piece {
    /// A blank or a comment, with its number of bytes.
    Gap(usize),
    /// A token of this kind, with its number of bytes.
    Word(Kind, usize),
    /// Neither.
    Bad,
}

fn is_word_byte(byte: u8) -> bool
    ensures { result ≡ is_word_byte byte }
{
    byte.is_ascii_alphanumeric() || byte == b'_'
}

fn is_blank(byte: u8) -> bool
    ensures { result ≡ is_blank byte }
{
    matches!(byte, b' ' | b'\t' | b'\n' | b'\r')
}

// How many word bytes there are at the front.
fn word_len(bytes: &[u8]) -> usize
    ensures { result ≡ prefix_len is_word_byte bytes.now }
{
    bytes.iter().take_while(|b| is_word_byte(**b)).count()
}

// How many bytes come before the first line feed, or in all.
fn line_len(bytes: &[u8]) -> usize
    ensures { result ≡ prefix_len is_in_line bytes.now }
{
    bytes.iter().take_while(|b| **b != b'\n').count()
}

/// The front of a text that is not empty.
pub(crate) fn front(text: &str) -> Piece
    requires some { 0 < length text.now }
    requires ascii { IsAscii text.now }
    ensures { StandsInFront result text.now }
{
    let bytes = text.as_bytes();
    let first = bytes[0];
    if is_word_byte(first) {
        let length = word_len(bytes);
        return match word_kind(&text[..length]) {
            Some(kind) => Piece::Word(kind, length),
            None => Piece::Bad,
        };
    }
    if is_blank(first) {
        return Piece::Gap(1);
    }
    if let Some(comment) = bytes.strip_prefix(b"//") {
        return Piece::Gap(2 + line_len(comment));
    }
    match sign_at_front(bytes) {
        Some((kind, length)) => Piece::Word(kind, length),
        None => Piece::Bad,
    }
}
