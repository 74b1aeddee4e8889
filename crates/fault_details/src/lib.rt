//! What is said about a fault of scopes: which of its cases it is, the counts that differ, and where the other one is;
//! and where a text is too deep.
#![tactic(auto)]

mod counting;
mod deep;
mod details;
mod nearness;
mod seeking;
mod visible;

pub use deep::deep_in;
pub use details::{globals_in, threads_in, words_of};
