//! Cases of the check of scopes and of the rewriting.
//!
//! `check TEXT` and `parts TEXT` ask for the check, `rewrite COUNT TEXT`, `holds COUNT LINE :: TEXT`, `fits COUNT
//! TEXT` and `widths COUNT TEXT` for the rewriting, and `rounds COUNT` for a number of rounds alone. `{COUNT WORDS}` in
//! a text stands for these words, COUNT times. What is printed for a case with each allocation refused in turn is its
//! answer, and a line that says what refusals change.

mod answers;
mod refusals;

use answers::words;
use cases::Sweep;
use refusals::refused_in_turn;
use std::alloc::{AllocError, Global};

/// A text with the same words several times in it: what comes before them, `COUNT WORDS`, and what comes after.
fn repeated(
    alloc: Global,
    before: &str,
    inside: &str,
    after: &str,
) -> Result<Option<String>, AllocError> {
    let Some((number, words)) = inside.split_once(' ') else {
        return Ok(None);
    };
    let Ok(count) = number.parse::<u32>() else {
        return Ok(None);
    };
    let mut text = String::from_str(alloc, before)?;
    for _nth in 0..count {
        text.push_str(words)?;
    }
    text.push_str(after)?;
    Ok(Some(text))
}

/// A line with the words written out that it repeats, if any.
fn expanded(alloc: Global, line: &str) -> Result<String, AllocError> {
    if let Some((before, rest)) = line.split_once('{') {
        if let Some((inside, after)) = rest.split_once('}') {
            if let Some(text) = repeated(alloc, before, inside, after)? {
                return Ok(text);
            }
        }
    }
    String::from_str(alloc, line)
}

/// The answer to a case.
fn answered(
    host: Global,
    sweep: Option<Sweep>,
    word: &str,
    rest: &str,
) -> Result<String, AllocError> {
    match sweep {
        Some(sweep) => refused_in_turn(host, sweep, word, rest),
        None => words(host, host, word, rest),
    }
}

/// Writes the answer to a case, whose words are written out first.
pub fn answer(
    host: Global,
    out: &mut String,
    sweep: Option<Sweep>,
    word: &str,
    rest: &str,
) -> Result<(), AllocError> {
    let rest = expanded(host, rest)?;
    let answer = answered(host, sweep, word, rest.as_str())?;
    out.push_str(answer.as_str())
}
