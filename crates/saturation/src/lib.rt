//! One turn of a thread, from globals and a set of stacks: what it can end with, found by saturation (post* of
//! Bouajjani, Esparza and Maler 1997).
#![tactic(auto)]

mod calls;
mod finding;
mod following;
mod found;
mod item;
mod paired;
mod saturating;
mod starting;
mod steps;
mod working;

pub use finding::find;
pub use found::Items;
pub use item::{Below, Caller, Entry, Item, Top};
