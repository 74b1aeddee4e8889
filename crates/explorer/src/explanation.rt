//! What standard error says about a refusal.

ghost use Rattle.std.specs.Prelude.{◌≡◌, ◌++◌, IfOk, OnOk};
ghost use Rattle.std.specs.String.{string_bytes};
ghost use Rattle.refusals.specs.Explained.{no_memory};
ghost use Rattle.explorer.specs.Explained.{Explains, LocatesWide, limit_lines, ways_out};
ghost use Rattle.explorer.specs.Explained.{wide_words};

use crate::refusal::Refusal;
use diagnostics::{Wrong, at_offset, push_escaped};
use explore_line::Order;
use refusals::{NO_MEMORY, explain_unchecked, explain_unread};
use resolved::MOST_PLACES;
use source_graphs::WideProcedure;
use std::alloc::{AllocError, Allocator};

/// What helps if the highest limit was passed, and if another was.
const NO_HIGHER: &str = "hint: no limit is higher; fewer rounds may answer\n";

const HIGHER: &str = "hint: --limit N raises the limit, up to 4294967295\n";

/// Writes that memory ran out.
fn push_no_memory<A: Allocator>(message: &mut String<A>) -> Result<(), AllocError>
    ensures { OnOk result (string_bytes message.new ≡ string_bytes message.old ++ no_memory) }
{
    message.push_str(NO_MEMORY)
}

/// What is said of a procedure with so many places.
fn wide_words<A: Allocator>(alloc: A, places: u128) -> Result<String<A>, AllocError>
    ensures { IfOk result (λ words. string_bytes words ≡ wide_words places) }
{
    format!(in alloc; " has {places} places with the globals, and {MOST_PLACES} is the limit\n")
}

/// Writes at its name which procedure has too many places.
fn too_wide<A: Allocator>(
    alloc: A,
    message: &mut String<A>,
    path: &str,
    text: &[u8],
    wide: WideProcedure,
) -> Result<(), AllocError>
    ensures { OnOk result (LocatesWide path.now text.now wide (string_bytes message.old)
        (string_bytes message.new)) }
{
    let words = wide_words(alloc, wide.places)?;
    let what = Wrong::Word(words.as_str());
    at_offset(message, path, text, wide.at, what)
}

/// What helps if this limit was passed.
fn ways_out(most: u32) -> &'static str
    ensures { result.now ≡ ways_out most }
{
    if most == u32::MAX { NO_HIGHER } else { HIGHER }
}

/// Writes that a limit was passed, of how many rounds no run fails, and what helps.
fn push_limit<A: Allocator>(
    message: &mut String<A>,
    path: &str,
    most: u32,
    rounds: u64,
) -> Result<(), AllocError>
    ensures { OnOk result (string_bytes message.new
        ≡ string_bytes message.old ++ limit_lines path.now most rounds) }
{
    push_escaped(message, path)?;
    let help = ways_out(most);
    write!(
        message,
        ": error: more was found than the limit; no run of {rounds} rounds fails\n{help}"
    )
}

/// Writes what standard error says about a refusal: what `refusals::explain` says of a fault of the text; for a
/// procedure with too many places where it is and how many it has; one line for each other refusal. If the limit was
/// passed, that line says of how many rounds no run fails, and a hint follows. An error means that memory ran out; a
/// part of the message may have been written.
pub fn explain<A: Allocator + Copy>(
    alloc: A,
    message: &mut String<A>,
    path: &str,
    text: &[u8],
    order: Order,
    refusal: &Refusal,
) -> Result<(), AllocError>
    ensures { OnOk result (Explains path.now text.now order refusal.now (string_bytes message.old)
        (string_bytes message.new)) }
{
    match refusal {
        Refusal::Unread(fault) => explain_unread(alloc, message, path, text, fault),
        Refusal::Unchecked(fault) => explain_unchecked(alloc, message, path, text, fault),
        Refusal::TooWide(wide) => too_wide(alloc, message, path, text, *wide),
        Refusal::Memory => push_no_memory(message),
        Refusal::Limit(rounds) => push_limit(message, path, order.limit.most(), *rounds),
    }
}
