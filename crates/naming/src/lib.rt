//! A turn's sets of stacks as nodes: what saturation finds from globals and a node is named, and kept as nodes that are
//! there, or behind them.
#![tactic(auto)]

mod circles;
mod keeping;
mod listing;
mod moving;
mod named;
mod order;
mod part;
mod pruning;
mod taking;

pub use taking::BySaturation;
