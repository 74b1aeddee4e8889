//! The line that says why a text gets no verdict, and its status.

ghost use Rattle.std.specs.Prelude.{◌≡◌, IfErr, IfOk};
ghost use Rattle.std.specs.Cow.{cow_slice_items};
ghost use Rattle.refusals.specs.Lines.{NamesOffset, line_at, line_of, status_of, unchecked_line};
ghost use Rattle.refusals.specs.Lines.{unread_line};
ghost use Rattle.refusals.specs.declared.refusal.Refusal.TheVariants as why;

use crate::refusal::Refusal;
use scopes::ScopeFault;
use std::alloc::{AllocError, Allocator};
use std::borrow::CowSlice;
use syntax::ReadFault;

/// The line for lack of memory: it is fixed, and takes no memory.
pub const MEMORY_LINE: &str = "no verdict: memory\n";

/// The line of a refusal without an offset: it is fixed.
const TOO_LONG: &str = "refused: 1 too long\n";

const NOT_ASCII: &str = "refused: 2 not ascii\n";

const TOO_DEEP: &str = "refused: 4 too deep\n";

const TOO_WIDE: &str = "refused: 14 too wide\n";

const EDGE_LIMIT: &str = "no verdict: edge limit\n";

const NO_WORKER: &str = "no verdict: no worker\n";

const SPENT: &str = "no verdict: spent\n";

/// What the line of a refusal with an offset says before it.
const SYNTAX: &str = "3 syntax";

const UNDECLARED: &str = "6 undeclared";

const DECLARED_TWICE: &str = "7 declared twice";

const WRONG_COUNT: &str = "8 wrong count";

const BAD_THREAD: &str = "9 bad thread";

const BAD_LABEL: &str = "10 bad label";

const RESERVED: &str = "11 reserved";

const TOO_MANY: &str = "12 too many";

/// The bytes of a line, which is fixed.
fn fixed<A: Allocator>(line: &'static str) -> CowSlice<'static, u8, A>
    ensures { cow_slice_items result ≡ line.entry.now }
{
    CowSlice::Borrowed(line.as_bytes())
}

/// The line of a fault with its words, number first, and its offset.
fn located<A: Allocator>(
    alloc: A,
    words: &str,
    at: u32,
) -> Result<CowSlice<'static, u8, A>, AllocError>
    ensures { IfOk result (λ line. cow_slice_items line ≡ line_at words.now at) }
{
    let line = format!(in alloc; "refused: {words} at {at}\n")?;
    Ok(CowSlice::Owned(line.into_bytes()))
}

/// The line of a text that is not read. Only a line with an offset takes memory.
pub fn unread_line<A: Allocator>(
    alloc: A,
    fault: &ReadFault,
) -> Result<CowSlice<'static, u8, A>, AllocError>
    ensures line { IfOk result (λ line. cow_slice_items line ≡ unread_line fault.now) }
    ensures memory { IfErr result (λ _. NamesOffset (why.Unread fault.now)) }
{
    match fault {
        ReadFault::TooLong => Ok(fixed(TOO_LONG)),
        ReadFault::NotAscii => Ok(fixed(NOT_ASCII)),
        ReadFault::Syntax(at) => located(alloc, SYNTAX, *at),
        ReadFault::TooDeep => Ok(fixed(TOO_DEEP)),
        ReadFault::Memory => Ok(fixed(MEMORY_LINE)),
    }
}

/// The line of a text that has a fault of scopes. It takes memory, unless the fault is that memory ran out.
pub fn unchecked_line<A: Allocator>(
    alloc: A,
    fault: &ScopeFault,
) -> Result<CowSlice<'static, u8, A>, AllocError>
    ensures line { IfOk result (λ line. cow_slice_items line ≡ unchecked_line fault.now) }
    ensures memory { IfErr result (λ _. NamesOffset (why.Unchecked fault.now)) }
{
    match fault {
        ScopeFault::Undeclared(at) => located(alloc, UNDECLARED, *at),
        ScopeFault::DeclaredTwice(at) => located(alloc, DECLARED_TWICE, *at),
        ScopeFault::WrongCount(at) => located(alloc, WRONG_COUNT, *at),
        ScopeFault::BadThread(at) => located(alloc, BAD_THREAD, *at),
        ScopeFault::BadLabel(at) => located(alloc, BAD_LABEL, *at),
        ScopeFault::Reserved(at) => located(alloc, RESERVED, *at),
        ScopeFault::TooMany(at) => located(alloc, TOO_MANY, *at),
        ScopeFault::Memory => Ok(fixed(MEMORY_LINE)),
    }
}

/// The line that says why a text gets no verdict. Only a line with an offset takes memory.
pub fn line<A: Allocator>(
    alloc: A,
    refusal: &Refusal,
) -> Result<CowSlice<'static, u8, A>, AllocError>
    ensures line { IfOk result (λ line. cow_slice_items line ≡ line_of refusal.now) }
    ensures memory { IfErr result (λ _. NamesOffset refusal.now) }
{
    match refusal {
        Refusal::Unread(fault) => unread_line(alloc, fault),
        Refusal::Unchecked(fault) => unchecked_line(alloc, fault),
        Refusal::TooWide(_) => Ok(fixed(TOO_WIDE)),
        Refusal::EdgeLimit(_) => Ok(fixed(EDGE_LIMIT)),
        Refusal::Memory => Ok(fixed(MEMORY_LINE)),
        Refusal::NoWorker => Ok(fixed(NO_WORKER)),
        Refusal::Spent => Ok(fixed(SPENT)),
    }
}

/// The exit status if a text gets no verdict.
pub fn status(refusal: &Refusal) -> u8
    ensures { result ≡ status_of refusal.now }
{
    match refusal {
        Refusal::Unread(ReadFault::Memory) | Refusal::Unchecked(ScopeFault::Memory) => 3,
        Refusal::Unread(_) | Refusal::Unchecked(_) | Refusal::TooWide(_) => 2,
        Refusal::EdgeLimit(_) | Refusal::Memory | Refusal::NoWorker | Refusal::Spent => 3,
    }
}
