//! Why a text gets no verdict, with the line of the reply and the status.

ghost use Rattle.std.specs.Prelude.{◌≡◌, IfErr, IfOk};
ghost use Rattle.std.specs.Cow.{cow_slice_items};
ghost use Rattle.explorer.specs.Lines.{NamesOffset, line_of, status_of};

use refusals::{MEMORY_LINE, unchecked_line, unread_line};
use scopes::ScopeFault;
use source_graphs::WideProcedure;
use std::alloc::{AllocError, Allocator};
use std::borrow::CowSlice;
use syntax::ReadFault;

/// Why a text gets no verdict.
#[derive(Drop)]
pub enum Refusal {
    /// It is not read.
    Unread(ReadFault),
    /// It has a fault of scopes.
    Unchecked(ScopeFault),
    /// This procedure has more than 128 places, the first that has.
    TooWide(WideProcedure),
    /// An allocation was refused.
    Memory,
    /// More was found and met than the limit. No run of this number of rounds fails.
    Limit(u64),
}

/// The line of a refusal without an offset: it is fixed.
const TOO_WIDE: &str = "refused: 14 too wide\n";

const LIMIT: &str = "no verdict: limit\n";

/// The line that says why a text gets no verdict. Only a line with an offset takes memory.
pub fn line<A: Allocator>(
    alloc: A,
    refusal: &Refusal,
) -> Result<CowSlice<'static, u8, A>, AllocError>
    ensures line { IfOk result (λ line. cow_slice_items line ≡ line_of refusal.now) }
    ensures memory { IfErr result (λ _. NamesOffset refusal.now) }
{
    match refusal {
        Refusal::Unread(fault) => unread_line(alloc, fault),
        Refusal::Unchecked(fault) => unchecked_line(alloc, fault),
        Refusal::TooWide(_) => Ok(CowSlice::Borrowed(TOO_WIDE.as_bytes())),
        Refusal::Memory => Ok(CowSlice::Borrowed(MEMORY_LINE.as_bytes())),
        Refusal::Limit(_) => Ok(CowSlice::Borrowed(LIMIT.as_bytes())),
    }
}

/// The exit status if a text gets no verdict.
pub fn status(refusal: &Refusal) -> u8
    ensures { result ≡ status_of refusal.now }
{
    match refusal {
        Refusal::Unread(ReadFault::Memory) | Refusal::Unchecked(ScopeFault::Memory) => 3,
        Refusal::Unread(_) | Refusal::Unchecked(_) | Refusal::TooWide(_) => 2,
        Refusal::Memory | Refusal::Limit(_) => 3,
    }
}
