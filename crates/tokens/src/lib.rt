//! The tokens of the input language: how a text is cut into them, and how deep they nest.
#![tactic(auto)]

mod cutting;
mod depth;
mod limits;
mod parts;
mod piece;
mod text;
mod vocabulary;
mod words;

pub use cutting::{CutFault, cut, cutting_is_unique};
pub use depth::is_too_deep;
pub use limits::MOST_BYTES;
pub use parts::parts_are_cut;
pub use text::as_ascii;
pub use vocabulary::{Kind, Token};
