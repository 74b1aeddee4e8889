//! Turns of a thread over sets of stacks.
#![tactic(auto)]

mod laws;
mod numbered_frame;

pub use laws::{
    a_program_is_unsafe_where_a_turn_by_numbers_fails, a_verdict_does_not_depend_on_marks,
};
pub use numbered_frame::NumberedFrame;
