//! The replies of the program.

use refusals::Refusal;

/// What is written to the standard output, the status of the program, and why there is no verdict, or no rewriting.
pub type Reply<A> = streams::Reply<Refusal, A>;
