//! What the command lines of the programs have in common: arguments, the version, and faults.
#![tactic(auto)]

mod line_fault;
mod shared;

pub use line_fault::{LineFault, fault_of};
pub use shared::{VERSION, file, option, stats};
