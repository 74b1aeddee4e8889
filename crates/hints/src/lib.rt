//! Hints for a text that does not continue as a program does: tables of what may be meant, and the first row that fits.
#![tactic(auto)]

mod blocks;
mod choosing;
mod expressions;
mod front;
mod group;
mod hint;
mod known;
mod outside;
mod place;
mod row;
mod signs;
mod tables;
mod words;

pub use front::{Brackets, front_to};
pub use group::Group;
pub use hint::push_hint;
pub use known::known_tokens;
pub use place::{last_kind, without_last};
