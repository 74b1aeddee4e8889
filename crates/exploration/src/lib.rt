//! The search over rounds of turns: which globals and sets of stacks are met before each thread's turn, and whether a
//! turn fails (after the bound on contexts of Qadeer and Rehof 2005; here the bound is on rounds).
#![tactic(auto)]

mod covers;
mod exploring;
mod kept_turns;
mod limits;
mod moment;
mod report;
mod searching;
mod start;
mod tuple;

pub use exploring::explore;
pub use limits::{Rounds, WorkLimit};
pub use report::{Answer, NoVerdict, Report};
