//! Mailboxes that keep their whole history: what was posted, what was taken, and which takes are completed; and the
//! orders of a board with several mailboxes.
#![tactic(auto)]

mod entry;
mod event;
mod laws;
mod ledger;
mod legality;
mod mailbox;
mod number;
mod side;

pub use entry::Entry;
pub use event::Event;
pub use laws::{
    a_run_of_two_mailboxes, closed_by_counting, nobody_has_a_job_at_the_close,
    nothing_follows_the_close, takes_are_the_first_posts, what_was_sent_on_a_board_was_taken,
    what_was_sent_was_taken,
};
pub use ledger::Ledger;
pub use legality::legal;
pub use mailbox::{History, Mailbox};
pub use side::{Side, by_sender};
