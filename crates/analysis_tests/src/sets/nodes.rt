//! Inner nodes of the diagrams of a set.

use crate::sets::sets::{Spot, first_word, insert, spot_of, step};
use cases::first;
use language::Word;
use path_sets::{DiagramEdges, PathSet};
use std::alloc::{AllocError, Allocator, Global};

/// Inserts the least multiples of a number, `count` of them; returns how many were new.
fn insert_multiples<A: Allocator, S: PathSet<A>>(
    set: &mut S,
    spot: Spot,
    count: u64,
    factor: Word,
) -> Result<u64, AllocError> {
    let before = set.len();
    for number in 0..count {
        insert(set, (spot.0, spot.1, (number as Word).wrapping_mul(factor)))?;
    }
    Ok(set.len().saturating_sub(before))
}

/// Inserts the valuations of a given number of bits with an even number of ones; returns how many were new.
fn insert_even<A: Allocator, S: PathSet<A>>(
    set: &mut S,
    spot: Spot,
    bits: u64,
) -> Result<u64, AllocError> {
    let before = set.len();
    for values in 0..1u64 << (bits % 64) {
        if values.count_ones() % 2 == 0 {
            insert(set, (spot.0, spot.1, values as Word))?;
        }
    }
    Ok(set.len().saturating_sub(before))
}

/// Writes what a step returns that only inserts or asks what each set can tell.
pub fn filling<A: Allocator, S: PathSet<A>>(
    set: &mut S,
    out: &mut String,
    word: &str,
) -> Result<(), AllocError> {
    if let Some(text) = word.strip_prefix('*') {
        let (spot, rest) = spot_of(text);
        let (count, rest) = first(rest);
        let added = insert_multiples(set, spot, count, first_word(rest).0)?;
        write!(out, "{added} ")
    } else if let Some(text) = word.strip_prefix('^') {
        let (spot, rest) = spot_of(text);
        let added = insert_even(set, spot, first(rest).0)?;
        write!(out, "{added} ")
    } else {
        step(set, out, word)
    }
}

/// Takes the steps of a text; what they answer is dropped.
pub fn fill<A: Allocator, S: PathSet<A>>(
    alloc: Global,
    set: &mut S,
    words: &str,
) -> Result<(), AllocError> {
    let mut out = String::new(alloc);
    for word in words.split_whitespace() {
        filling(set, &mut out, word)?;
    }
    Ok(())
}

/// Writes what a step on a set of diagrams returns.
fn step_of<A: Allocator + Copy>(
    set: &mut DiagramEdges<A>,
    out: &mut String,
    word: &str,
) -> Result<(), AllocError> {
    let Some(text) = word.strip_prefix('@') else {
        return filling(set, out, word);
    };
    let (spot, _) = spot_of(text);
    match set.nodes(spot.0, spot.1) {
        Ok(count) => write!(out, "{count} "),
        Err(_) => write!(out, "refused "),
    }
}

/// Writes what each step on a set of diagrams returns.
fn steps_of<A: Allocator + Copy>(
    set: &mut DiagramEdges<A>,
    out: &mut String,
    words: &str,
) -> Result<(), AllocError> {
    for word in words.split_whitespace() {
        step_of(set, out, word)?;
    }
    Ok(())
}

/// Writes what each step on an empty set of diagrams in memory of `room` returns.
fn steps_in<A: Allocator + Copy>(room: A, out: &mut String, words: &str) -> Result<(), AllocError> {
    let mut set: DiagramEdges<A> = PathSet::empty(room);
    steps_of(&mut set, out, words)
}

/// Writes what each step on an empty set of diagrams returns.
pub fn counts(alloc: Global, out: &mut String, words: &str) -> Result<(), AllocError> {
    steps_in(alloc, out, words)
}
