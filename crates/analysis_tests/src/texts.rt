//! Cases of a text: its tokens and its tree, what is printed for it, and its fault.
//!
//! A case is a command and a text with its escapes (`texts/row.rt`); the commands are in `texts/answers.rt`.

mod answers;
mod page;
mod refused;
mod row;
mod show;

use cases::Sweep;
use std::alloc::{AllocError, Global};

/// Writes the answer to a command and the spelling of a text in one line.
pub fn answer(
    alloc: Global,
    out: &mut String,
    sweep: Option<Sweep>,
    command: &str,
    spelled: &str,
) -> Result<(), AllocError> {
    let answer = answers::answer(alloc, sweep, command, spelled)?;
    out.push_str(answer.as_str())
}
