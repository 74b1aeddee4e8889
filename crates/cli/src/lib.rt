//! The program bebopk, except for what the system hands to it: from bytes to a reply, from a reader to the standard
//! streams, and from the words of the command line to a status.
#![tactic(auto)]

mod answers;
mod checking;
mod counts;
mod judge;
mod program;
mod reply;
mod rewriting;
mod running;
mod sequential;
mod serving;

pub use answers::{answer, answer_with, no_memory};
pub use command_line::{LineFault, order};
pub use orders::Order;
pub use program::ended;
pub use refusals::{Refusal, explain};
pub use reply::Reply;
pub use running::run;
pub use serving::{serve, serve_telling};
pub use streams::{Stream, decline, words};
