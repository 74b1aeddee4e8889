//! What programs that reply to a text have in common: they read it from a reader, write the reply and the message about
//! it to the standard streams, and reply where there is no text or no order.
#![tactic(auto)]

mod declining;
mod reply;
mod saying;
mod sink;
mod source;
mod system_words;
mod unserved;

pub use declining::decline;
pub use reply::Reply;
pub use saying::{say, tell, tell_reason};
pub use sink::Stream;
pub use source::text_of;
pub use system_words::{not_passed, words};
pub use unserved::{no_room, unread};
