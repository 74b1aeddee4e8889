//! Whether a row fits, and the first that does.

ghost use Rattle.std.specs.Prelude.{◌≡◌, bytes_eq, find, length, map, option_map};
ghost use Rattle.std.specs.List.{list_any};
ghost use Rattle.hints.specs.Place.{surroundings_of};
ghost use Rattle.hints.specs.Row as told;
ghost use Rattle.diagnostics.specs.Message.{is_word_byte};

use crate::group::allows;
use crate::place::Spot;
use crate::row::{Next, Pattern, Row};
use diagnostics::first_word;

/// The bytes that signs of the language begin with.
const SIGN_BYTES: &[u8] = b",;:()?=|^&!";

fn is_one_of(words: &[&str], word: &[u8]) -> bool
    ensures { result ≡ list_any (λ w. bytes_eq word.now w.now) words.now }
{
    words.iter().any(|one| word == one.as_bytes())
}

/// Whether the word is one of these, or these are none.
fn admits(words: &[&str], word: &[u8]) -> bool
    ensures { result ≡ told.admits (map (λ w. w.now) words.now) word.now }
{
    words.is_empty() || is_one_of(words, word)
}

fn begins_with(text: &[u8], spelled: &str) -> bool
    ensures { result ≡ told.begins_with text.now spelled.now }
{
    let word = first_word(text);
    if word.is_empty() {
        text.starts_with(spelled.as_bytes())
    } else {
        word == spelled.as_bytes()
    }
}

fn begins_with_one_of(words: &[&str], text: &[u8]) -> bool
    ensures { result ≡ list_any (λ w. told.begins_with text.now w.now) words.now }
{
    words.iter().any(|one| begins_with(text, *one))
}

/// Whether the text begins with one of these, or these are none.
fn begins_among(words: &[&str], text: &[u8]) -> bool
    ensures { result ≡ told.begins_among (map (λ w. w.now) words.now) text.now }
{
    words.is_empty() || begins_with_one_of(words, text)
}

fn is_name(word: &[u8]) -> bool
    ensures { result ≡ told.is_name word.now }
{
    match word {
        [first, ..] => !first.is_ascii_digit(),
        [] => false,
    }
}

fn is_number(word: &[u8]) -> bool
    ensures { result ≡ told.is_number word.now }
{
    match word {
        [first, ..] => first.is_ascii_digit()
            && !(word == "0".as_bytes() || word == "1".as_bytes()),
        [] => false,
    }
}

fn is_of_word(byte: u8) -> bool
    ensures { result ≡ is_word_byte byte }
{
    byte.is_ascii_alphanumeric() || byte == b'_'
}

fn is_strange(text: &[u8]) -> bool
    ensures { result ≡ told.is_strange text.now }
{
    match text {
        [first, ..] => !is_of_word(*first) && !SIGN_BYTES.contains(first),
        [] => false,
    }
}

/// Whether what a text begins with is of this kind.
fn is_next(next: Next, text: &[u8]) -> bool
    ensures { result ≡ told.is_next next text.now }
{
    match next {
        Next::Each => true,
        Next::Word => is_name(first_word(text)),
        Next::Number => is_number(first_word(text)),
        Next::Strange => is_strange(text),
        Next::Ended => text.is_empty(),
    }
}

/// Whether a pattern fits the tokens before a place, and what is there.
fn matches(pattern: &Pattern, place: &Spot<'_>) -> bool
    ensures { result ≡ told.matches (surroundings_of place.now) pattern.now }
{
    allows(pattern.last, place.last)
        && allows(pattern.second, place.second)
        && allows(pattern.head, place.head)
        && allows(pattern.owner, place.owner)
        && allows(pattern.block, place.block)
        && is_next(pattern.next, place.rest)
}

/// Whether a row fits a place.
fn fits(row: &Row, place: &Spot<'_>) -> bool
    ensures { result ≡ told.fits (surroundings_of place.now) (told.row_of row.now) }
{
    matches(&row.0, place)
        && admits(row.1, place.word)
        && admits(row.2, place.called)
        && begins_among(row.3, place.rest)
}

/// The first row that fits.
pub fn first_row(rows: &[Row], place: &Spot<'_>) -> Option<Row>
    ensures { option_map told.row_of result
        ≡ find (told.fits (surroundings_of place.now)) (map told.row_of rows.now) }
{
    for row in rows {
        if fits(row, place) {
            return Some(*row);
        }
    }
    None
}
