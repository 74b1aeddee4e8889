//! A ticket lock (Mellor-Crummey and Scott 1991): guards go out in the order of the tickets, and each guard is at the
//! history of all values left before.
#![tactic(auto)]

mod alone;
mod close;
mod hand;
mod lane;
mod law;
mod lock;
mod one;
mod open;
mod place;
mod plays;
mod rule;
mod view;
mod waiting;

pub use alone::Alone;
pub use hand::Hand;
pub use lane::{Guard, Lane, Note, Spent, Ticket};
pub use law::LaneLaw;
pub use lock::TicketLock;
pub use one::{at_most_one_guard, no_number_twice};
pub use open::MOST_TICKETS;
pub use place::{come_when_free_at, draw_at, enter_at, leave_at, look_at, serve_next_at, value_at};
pub use rule::LockRule;
pub use view::{Opening, View};
pub use waiting::sleep;
