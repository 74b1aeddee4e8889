//! The program bebopk-explore, except for what the system hands to it: from bytes to a reply, from a reader to the
//! standard streams, and from the words of the command line to a status. It has one thread, and waits for nobody.
#![tactic(auto)]

mod answers;
mod explanation;
mod program;
mod refusal;
mod running;
mod serving;

pub use answers::{answer, answer_with, no_memory};
pub use explanation::explain;
pub use explore_line::{LineFault, Order, order};
pub use program::ended;
pub use refusal::{Refusal, line, status};
pub use running::run;
pub use serving::{serve, serve_telling};
pub use streams::{Reply, Stream, words};
