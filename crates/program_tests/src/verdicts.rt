//! Cases of the command line and of its answers. In these, a text and the name of its file may use the shorthand of
//! `verdicts/text.rt`.
//!
//! | Line | What is printed under it |
//! |---|---|
//! | `WORDS` | the order that the words of the command line give, or why they give none |
//! | `WORDS \| TEXT` | the status and the reply to that text |
//! | `status: WORDS \| TEXT` | the status alone |
//! | `each beginning: WORDS \| TEXT` | the replies to its beginnings, the lengths of one reply in a row together |
//! | `each allocation: WORDS \| TEXT` | the reply, if with allocation N refused, for each N, it is that one or `no verdict: memory` |
//! | `each schedule: WORDS \| TEXT` | the reply, if it is the same 100 times, and with each of the first eight workers held back in turn |
//! | `each pair: WORDS \| TEXT` | the reply, if it is the same over each pair of board and set |
//! | `200 allocations: WORDS \| TEXT` | the same for the first 200 |
//! | `from each allocation on: WORDS \| TEXT` | the same if all after that one are refused too |
//! | `all pairs, each allocation: WORDS \| TEXT` | one of these over each pair of board and set |
//! | `message: WORDS \| TEXT` | the reply, and what standard error says about it, if each allocation refused leaves that or an error |
//! | `message without memory: WORDS \| TEXT` | the same, if the first allocation of the answer is refused |
//! | `message of the edge limit: WORDS \| TEXT` | what standard error says if a procedure passes the limit of the words |

mod beginnings;
mod case;
mod message;
mod refused;
mod schedules;
mod text;
mod words;

pub use case::answered;
