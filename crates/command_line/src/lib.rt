//! The command line of bebopk: which order its words ask for.
#![tactic(auto)]

mod help;
mod laws;
mod line;

pub use arguments::LineFault;
pub use laws::what_is_taken_is_an_order;
pub use line::order;
