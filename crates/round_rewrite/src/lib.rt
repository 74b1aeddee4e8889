//! The rewriting of a concurrent Boolean program into a sequential one, for a number of rounds.
//!
//! The copies of the globals for each round are guessed at the start and checked at the end: the idea is that
//! of Lal and Reps (2008), the construction is this project's own.
#![tactic(auto)]

mod assignment;
mod block;
mod cores;
mod expression;
mod fault;
mod globals;
mod laws;
mod limits;
mod lists;
mod main_procedure;
mod names;
mod needs;
mod procedures;
mod rewriting;
mod rounds;
mod statement;
mod width;
mod writer;

pub use fault::RewriteFault;
pub use laws::{
    rewriting_keeps_failures, rewriting_keeps_failures_of_resolved_programs,
    worked_programs_are_rewritten_to_these_texts,
};
pub use limits::MOST_ROUNDS;
pub use resolved::Sequential;
pub use rewriting::rewrite;
pub use rounds::Rounds;
pub use width::{Wide, too_wide};
