//! Cases of boards with an inserted abort.
//!
//! A row has two passes. After the opening, which posts m0 to mailbox 0, come the calls of this table; after them both
//! passes take once more. A job is that of the message with its number.
//!
//! | Call | What | Call | What |
//! |---|---|---|---|
//! | 1 | pass 0 takes m0 | 8 | pass 1 takes: `Empty` |
//! | 2 | it posts m1 to mailbox 1 | 9 | it completes m1 |
//! | 3 | it posts m2 to mailbox 1 | 10 | it completes m2 |
//! | 4 | it tells what it has seen | 11 | it takes: `Empty` |
//! | 5 | pass 1 learns it | 12 | pass 0 completes m0 |
//! | 6 | it takes m1 | 13 | it takes: `Closed` |
//! | 7 | it takes m2 | 14 | pass 1 takes: `Closed` |
//!
//! A case is `one lock, pass 1, no job, after 6`, or `lock for each, pass 1, job 2, after 7`: over which board, which
//! pass aborts it, with which of its jobs, and after which call, where 0 is the opening. The other calls are made all
//! the same, except those whose job was never taken or is spent. Each pass has enough calls, or one fewer than B if
//! `budget B, ` comes before the pass; and if `, twice` comes last, the pass aborts the board a second time at once,
//! without a job. `no abort` in place of the pass and what follows it leaves the abort out.
//!
//! Printed are the results of the calls after the abort, or of all, and how many of each event the histories then have.

mod calls;
mod case;
mod ends;
mod letters;
mod one_call;
mod row;

pub use case::answer;
