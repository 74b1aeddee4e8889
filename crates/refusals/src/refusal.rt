//! Why a text gets no verdict.

use round_rewrite::Wide;
use scopes::ScopeFault;
use syntax::ReadFault;

/// Why a text gets no verdict.
#[derive(Drop)]
pub enum Refusal {
    /// It is not read.
    Unread(ReadFault),
    /// It has a fault of scopes.
    Unchecked(ScopeFault),
    /// Some procedure of the rewritten program has more than 128 places; with the first such procedure of the source.
    TooWide(Option<Wide>),
    /// A procedure of the rewritten program has more path edges than the limit: that whose name is at this offset, or
    /// `main__`, which is not in the text.
    EdgeLimit(Option<u32>),
    /// An allocation was refused.
    Memory,
    /// A worker's thread was refused.
    NoWorker,
    /// A worker has used up its calls.
    Spent,
}
