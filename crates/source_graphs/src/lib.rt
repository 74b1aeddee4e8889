//! The flow graphs of a checked program itself, as it was written, and its asserts.
#![tactic(auto)]

mod no_graphs;
mod source;
mod width;

pub use no_graphs::NoGraphs;
pub use source::{SourceGraphs, source_graphs};
pub use width::{WideProcedure, wide_procedure};
