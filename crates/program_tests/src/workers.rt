//! Cases of workers.
//!
//! | Line | What is printed under it |
//! |---|---|
//! | `report K N \| TEXT` | the answer for K rounds and at most N path edges, once, if all pairs of board and set agree |
//! | `times T: report K N \| TEXT` | the same, if T runs of each come to the same |
//! | `late: report K N \| TEXT` | the same, if it is the same with each lane held back in turn at each of its takes and posts |
//! | `meeting: report K N \| TEXT` | the same, if the first post of lane 1 and the first take of lane 2 wait for each other |
//! | `begun: report K N \| TEXT` | the same, and whether lane 0 has taken and posted and lane 1 has taken |
//! | `but lane L: answer K N \| TEXT` | the answer with the thread of lane L refused, and how many lanes were asked for, over all pairs |
//! | `but lane L after take C of lane P: answer K N \| TEXT` | the same, if the refusal comes after that call (or `post C`) |
//! | `budget B: answer K N \| TEXT` | the answer if each worker has B - 1 calls of the board, over all four pairs |
//! | `budgets B: answer K N \| TEXT` | the same for 2, and whether for 3 to B it is `Spent` or the answer that comes without a limit |
//! | `exact S: answer K N \| TEXT` | the answers with a budget that is one too small, just enough and one more, over all four pairs, for one procedure with S summaries whose lanes make no call in vain |
//! | `limits N: answer K N \| TEXT` | the answers for at most 1 to N path edges, if they change, over all four pairs |
//! | `each allocation: answer K N \| TEXT` | the answer, if with each allocation refused in turn there is none for lack of memory |
//! | `200 allocations: answer K N \| TEXT` | the same for the first 200 |
//! | `answer K N \| TEXT` | the answer alone |
//!
//! Otherwise the board has a lock for each mailbox, or, if a case begins with `one lock, `, one for all; and the sets
//! are ordered, or, if `diagrams, ` comes then, diagrams. A report has how many entries, pairs and takes each
//! procedure has, or why there is none. Entries and pairs are also compared with those of one thread.

use cases::prefix_of;

mod case;
mod exact;
mod gates;
mod held;
mod program;
mod refusing;
mod report;
mod scarcity;
mod tried;

pub use case::answer;
pub use gates::Late;

/// Whether a line is a case of workers.
pub fn is_case(line: &str) -> bool {
    let (_, case) = prefix_of(line);
    case.starts_with("report ") || case.starts_with("answer ")
}
