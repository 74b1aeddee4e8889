//! Reads texts of the language into trees.
#![tactic(auto)]

mod element;
mod expression;
mod fault;
mod laws;
mod lists;
mod print_expressions;
mod print_statements;
mod printed_laws;
mod printing;
mod program;
mod reader;
mod reading;
mod show;
mod statement;
mod written;

pub use fault::ReadFault;
pub use laws::texts_have_one_tree;
pub use printed_laws::printed_texts_are_read_back;
pub use printing::print;
pub use reading::read;
pub use trees::{Core, Expr, Name, Op, Proc, Program, Rhs, Stmt, Thread};
