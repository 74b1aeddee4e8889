//! Words that a reader may take for each other.

ghost use Rattle.std.specs.Prelude.{◌≡◌, ◌≤◌, drop, length};
ghost use Rattle.fault_details.specs.Nearness as told;

/// How many letters two words have in common at their beginnings.
fn common(word: &[u8], other: &[u8]) -> usize
    ensures value { result ≡ told.common word.now other.now }
    ensures first { result ≤ length word.now }
    ensures second { result ≤ length other.now }
{
    let mut same = 0;
    while same < word.len() && same < other.len() && word[same] == other[same] {
        same += 1;
    }
    same
}

/// Whether the first two letters are swapped, and the others are the same.
fn are_swapped(word: &[u8], other: &[u8]) -> bool
    ensures { result ≡ told.are_swapped word.now other.now }
{
    match (word, other) {
        ([a, b, rest @ ..], [c, d, others @ ..]) => a == d && b == c && rest == others,
        _ => false,
    }
}

/// The letters after the first one.
fn behind_first(word: &[u8]) -> &[u8]
    ensures { result.now ≡ drop 1 word.now }
{
    match word {
        [_, rest @ ..] => rest,
        [] => word,
    }
}

/// Whether one letter, the first, is replaced, left out or added, or swapped with the second.
fn are_close(word: &[u8], other: &[u8]) -> bool
    ensures { result ≡ told.are_close word.now other.now }
{
    behind_first(word) == behind_first(other)
        || behind_first(word) == other
        || word == behind_first(other)
        || are_swapped(word, other)
}

/// Whether not both words have at most one letter.
fn have_letters(word: &[u8], other: &[u8]) -> bool
    ensures { result ≡ told.have_letters word.now other.now }
{
    word.len() > 1 || other.len() > 1
}

/// Whether two words differ by the case of letters alone, or by one letter that is replaced, left out or added, or by a
/// swap of two neighbours. Of two words of one letter only the case may differ.
pub fn is_near(word: &[u8], other: &[u8]) -> bool
    ensures { result ≡ told.is_near word.now other.now }
{
    let same = common(word, other);
    word.eq_ignore_ascii_case(other)
        || (have_letters(word, other) && are_close(&word[same..], &other[same..]))
}
