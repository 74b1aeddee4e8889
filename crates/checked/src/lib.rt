//! Checked programs: those in which no fault of scopes stands, and what holds for each of them.
#![tactic(auto)]

mod checked;
mod fault;
mod laws;

pub use checked::Checked;
pub use fault::ScopeFault;
pub use laws::{checked_trees_are_rewritable, checked_trees_resolve};
