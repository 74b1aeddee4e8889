//! The worker of one procedure: a thread of its own, which takes the messages of its mailbox, works on its table, and
//! posts what the table answers, until everything is done or something fails.
#![tactic(auto)]

mod desk;
mod gate;
mod laws;
mod memory;
mod outcome;
mod pause;
mod stop;
mod worker;
mod working;

pub use desk::Context;
pub use gate::{Gate, Open};
pub use laws::a_new_pass_is_fresh;
pub use memory::{OutOfMemory, read_off};
pub use outcome::{End, Outcome};
pub use working::work;
