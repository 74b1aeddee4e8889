//! Why a text gets no verdict: its line and status, and what standard error says about it.
#![tactic(auto)]

mod explanation;
mod lines;
mod refusal;

pub use explanation::{
    NO_MEMORY, explain, unchecked as explain_unchecked, unread as explain_unread,
};
pub use lines::{MEMORY_LINE, line, status, unchecked_line, unread_line};
pub use refusal::Refusal;
