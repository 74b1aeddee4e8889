//! The trees of programs: what a text is read into, what is rewritten, and what flow graphs are drawn from.
#![tactic(auto)]

mod names;
mod parts;
mod tree;

pub use names::{declares, number_of_name, number_of_procedure};
pub use parts::give_value;
pub use tree::{Core, Expr, Name, Op, Proc, Program, Rhs, Stmt, Thread};
