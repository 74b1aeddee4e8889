//! Values that are found by a key.
#![tactic(auto)]

mod groups;
mod short_list;
mod values;

pub use groups::Groups;
pub use values::Values;
