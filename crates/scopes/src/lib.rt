//! The check of scopes: what is checked is meaningful, and each fault is named with its place.
#![tactic(auto)]

mod checking;
mod counts;
mod known;
mod labels;
mod limits;
mod names;
mod reserved;
mod search;
mod sooner;
mod statements;
mod threads;
mod twice;
mod undeclared;

pub use checked::{Checked, ScopeFault};
pub use checking::check;
pub use limits::{MOST_PROCEDURES, MOST_STATEMENTS, MOST_THREADS};
