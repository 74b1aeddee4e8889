//! Messages about a place of a text: its line and column, what is wrong there, and the source line.
#![tactic(auto)]

mod laws;
mod message;
mod name;
mod position;

pub use laws::an_escaped_name_has_no_control_character;
pub use message::{Wrong, at_offset, first_word, not_ascii, push_name, push_place};
pub use name::push_escaped;
