//! Mailboxes behind one lock, or behind a lock for each: each call takes effect in legal histories of all
//! mailboxes.
#![tactic(auto)]

mod board;
mod calls;
mod laws;
mod lock_per_box;
mod mail;
mod one_lock;
mod world;

pub use board::Board;
pub use calls::{Abort, Cause, Job, PostFault, Taken};
pub use laws::{
    a_job_lasts_until_it_is_done, a_message_comes_with_a_job, an_abort_stays,
    nobody_with_a_job_knows_the_close, nothing_is_posted_after_the_close, the_close_stays,
};
pub use lock_per_box::board::LockPerBox;
pub use lock_per_box::pass::{BoxPass, BoxTold};
pub use mail::Mail;
pub use one_lock::board::OneLock;
pub use one_lock::book::Book;
pub use one_lock::pass::{OnePass, OneTold};
