//! The command line of bebopk-explore: which order its words ask for.
#![tactic(auto)]

mod asked;
mod help;
mod laws;
mod line;
mod rounds;

pub use arguments::LineFault;
pub use asked::Order;
pub use laws::what_is_taken_is_an_order;
pub use line::order;
