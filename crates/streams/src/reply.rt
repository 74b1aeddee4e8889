//! Replies: what is written, the status, and why there is no verdict.

ghost use Rattle.std.specs.Prelude.{◌≡◌, None};

use std::alloc::Allocator;
use std::borrow::CowSlice;

/// What is written to the standard output, and the status of the program. A `Why` says why a text gets no verdict.
#[derive(Drop)]
pub struct Reply<Why: Drop, A: Allocator> {
    /// What is written to the standard output.
    pub bytes: CowSlice<'static, u8, A>,
    /// The exit status of the program.
    pub status: u8,
    /// Why the text got no verdict, or was not rewritten; `None` if it got one or was rewritten.
    pub refusal: Option<Why>,
}

impl<Why: Drop, A: Allocator> Reply<Why, A> {
    ghost use Rattle.streams.specs.Written.{bytes_of};

    /// A reply with a fixed text, and no refusal: it takes no memory.
    pub fn fixed(text: &'static str, status: u8) -> Self
        ensures bytes { bytes_of result ≡ text.entry.now }
        ensures status { result.status ≡ status }
        ensures refusal { result.refusal ≡ None }
    {
        Reply {
            bytes: CowSlice::Borrowed(text.as_bytes()),
            status,
            refusal: None,
        }
    }
}
