//! Summaries of procedures: which path edges of one procedure are reached by the messages that its table has taken, and
//! which messages the table then owes (summary edges after Ball and Rajamani 2000).
#![tactic(auto)]

mod calls;
mod chains;
mod due;
mod edge;
mod exits;
mod expanding;
mod finding;
mod fitting;
mod found;
mod frontier;
mod kept_call;
mod kept_edge;
mod kept_exit;
mod kept_pair;
mod known_entry;
mod laws;
mod linked_pair;
mod long_list;
mod no_verdict;
mod outbox;
mod pair;
mod reading;
mod resuming;
mod sending;
mod signature;
mod summaries;
mod table;
mod table_fault;
mod tabulation;
mod work;

pub use due::{Caller, Due};
pub use laws::{
    a_quiet_table_has_what_is_reached, a_table_keeps_path_edges_and_answers_what_is_due,
    each_message_has_its_numbers, the_opening_fits_the_first_mailbox,
};
pub use no_verdict::NoVerdict;
pub use pair::Pair;
pub use path_sets::EdgeLimit;
pub use reading::{read, read_off};
pub use summaries::{Summaries, Summary};
pub use table::Table;
pub use table_fault::TableFault;
pub use tabulation::{collect, deliver, tabulate};
