//! What is asked of a text.
#![tactic(auto)]

mod order;

pub use order::Order;
