//! What standard error says about a refusal.

ghost use Rattle.std.specs.Prelude.{◌≡◌, ◌++◌, OnOk};
ghost use Rattle.std.specs.String.{string_bytes};
ghost use Rattle.refusals.specs.Explained.{Explains, ExplainsFault, ExplainsLimit, ExplainsOver};
ghost use Rattle.refusals.specs.Explained.{LocatesFault};
ghost use Rattle.refusals.specs.Explained.{ExplainsUnread, TellsOver, ascii_hint, explore_hint};
ghost use Rattle.refusals.specs.Explained.{fewer, is_memory, no_memory};
ghost use Rattle.diagnostics.specs.Name.{escaped};
ghost use Rattle.orders.specs.Parts.{rounds_of};
ghost use Rattle.refusals.specs.Explained.{ExplainsDepth, ExplainsWide, LocatesDepth, LocatesWide};
ghost use Rattle.refusals.specs.Explained.{depth_hint, depth_words, long_line, main_line};
ghost use Rattle.refusals.specs.Explained.{places_line, ways_out, wide_line};

use crate::refusal::Refusal;
use diagnostics::{Wrong, at_offset, not_ascii, push_escaped};
use fault_details::{deep_in, globals_in, threads_in, words_of};
use hints::push_hint;
use orders::Order;
use path_sets::MOST_EDGES;
use resolved::MOST_PLACES;
use round_rewrite::Wide;
use scopes::ScopeFault;
use std::alloc::{AllocError, Allocator};
use syntax::ReadFault;
use tokens::{Kind, MOST_BYTES, Token};

/// The message for lack of memory.
pub const NO_MEMORY: &str = "bebopk: out of memory\n";

/// What helps if the highest limit of path edges was passed.
const NO_HIGHER: &str =
    "hint: no limit is higher; use fewer bits for a counter, locals in place of globals, or one property at a time\n";

/// What helps if another limit of path edges was passed; the highest limit follows.
const HIGHER: &str = "hint: --edges N raises the limit, up to ";

/// What helps if a program of one thread is checked for more rounds.
const ONE_ROUND: &str = "hint: one round is enough for one thread\n";

/// What helps if a program of several threads is checked for more than one round; the rounds come between.
const FEWER: &str = "hint: fewer rounds than ";

const FEWER_END: &str =
    " may answer, and another order of the thread lines may need fewer rounds\n";

/// What helps if a limit of path edges was passed, whatever was asked: another program; the name of the file follows.
const EXPLORE: &str = "hint: a search without copies of the globals may answer: bebopk-explore ";

/// What is said of places: how many the globals take, and the others, come between.
const PLACES: &str = "hint: a place is a variable of the sequential program: the globals take ";

const PLACES_END: &str = ", and formals, locals, temporaries and the rewriting's own the other ";

/// What is said of the token with which a text becomes too deep, and what helps: if it opens something, and if it is an
/// operator.
const OPEN: &str = "more than 64 of `(`, `begin`, `if` and `while` are open here\n";

const RUN: &str =
    "more than 64 operators are in one run, which only a keyword, `,`, `;` or `:=` ends\n";

const LESS_OPEN: &str =
    "hint: move inner statements into a procedure, or assign an inner expression to a variable first\n";

const SHORTER: &str = "hint: assign a part of the expression to a variable first\n";

/// What is said of a text that is too deep, without a place.
const TOO_DEEP: &str =
    ": error: more than 64 of `(`, `begin`, `if` and `while` are open at once, or more than 64 operators are in one run\n";

/// What is said of a text that is too long, before and after the limit.
const TOO_LONG: &str = ": error: the text has more than ";

const BYTES: &str = " bytes\n";

/// What is said of `main__`, before and after the limit that it passed.
const MAIN: &str = ": error: `main__`, which calls the threads, has more than ";

const EDGES: &str = " path edges\n";

/// What is said of a program that is too wide in a procedure that is not named: the limit and the rounds come between.
const WIDE: &str = ": error: some procedure needs more than ";

const ROUNDS: &str = " places with --rounds ";

/// What is said if a thread was refused, and if a worker's calls are used up.
const NO_THREAD: &str = ": error: the system refused a thread for a procedure\n";

const NO_CALLS: &str = ": error: the worker of a procedure has used up its calls\n";

/// What is said of bytes that are not ASCII: at the beginning of a text with a byte-order mark, of one in UTF-16,
/// elsewhere.
const MARKED: &str = "hint: the text begins with a byte-order mark: save it without one\n";

const WIDE_CHARACTERS: &str = "hint: the text looks like UTF-16: save it as ASCII\n";

const ALL_ASCII: &str = "hint: each byte of a text is ASCII, in comments too\n";

/// Writes that memory ran out.
fn push_no_memory<A: Allocator>(message: &mut String<A>) -> Result<(), AllocError>
    ensures { OnOk result (string_bytes message.new ≡ string_bytes message.old ++ no_memory) }
{
    message.push_str(NO_MEMORY)
}

/// Writes words.
fn push<A: Allocator>(message: &mut String<A>, words: &str) -> Result<(), AllocError>
    ensures { OnOk result (string_bytes message.new ≡ string_bytes message.old ++ words.now) }
{
    message.push_str(words)
}

/// Writes the name of the file, and these words after it.
fn push_about<A: Allocator>(
    message: &mut String<A>,
    path: &str,
    words: &str,
) -> Result<(), AllocError>
    ensures { OnOk result (string_bytes message.new
        ≡ string_bytes message.old ++ (escaped path.now ++ words.now)) }
{
    push_escaped(message, path)?;
    message.push_str(words)
}

/// Writes that the text is too long.
fn push_too_long<A: Allocator>(message: &mut String<A>, path: &str) -> Result<(), AllocError>
    ensures { OnOk result
        (string_bytes message.new ≡ string_bytes message.old ++ long_line path.now) }
{
    push_escaped(message, path)?;
    write!(message, "{TOO_LONG}{MOST_BYTES}{BYTES}")
}

/// The hint for a text with a byte that is not ASCII.
fn ascii_hint(text: &[u8]) -> &'static str
    ensures { result.now ≡ ascii_hint text.now }
{
    if text.starts_with(&[0xef, 0xbb, 0xbf]) {
        MARKED
    } else if text.starts_with(&[0xff, 0xfe]) || text.starts_with(&[0xfe, 0xff]) {
        WIDE_CHARACTERS
    } else {
        ALL_ASCII
    }
}

/// What is said of a token of this kind, with which a text becomes too deep.
fn depth_words(kind: Kind) -> &'static str
    ensures { result.now ≡ depth_words kind }
{
    if kind.is_operator() { RUN } else { OPEN }
}

/// What helps if a text becomes too deep with a token of this kind.
fn depth_hint(kind: Kind) -> &'static str
    ensures { result.now ≡ depth_hint kind }
{
    if kind.is_operator() {
        SHORTER
    } else {
        LESS_OPEN
    }
}

/// Writes at a token that the text becomes too deep with it, and what helps.
fn push_depth<A: Allocator>(
    message: &mut String<A>,
    path: &str,
    text: &[u8],
    token: Token<'_>,
) -> Result<(), AllocError>
    ensures { OnOk result (LocatesDepth path.now text.now token.entry (string_bytes message.old)
        (string_bytes message.new)) }
{
    let what = Wrong::Place(depth_words(token.kind));
    at_offset(message, path, text, token.at, what)?;
    push(message, depth_hint(token.kind))
}

/// Writes that a text is too deep, at the first token with which it is.
fn too_deep<A: Allocator>(
    alloc: A,
    message: &mut String<A>,
    path: &str,
    text: &[u8],
) -> Result<(), AllocError>
    ensures { OnOk result (ExplainsDepth path.now text.now (string_bytes message.old)
        (string_bytes message.new)) }
{
    match deep_in(alloc, text) {
        Ok(Some(token)) => push_depth(message, path, text, token),
        Ok(None) => push_about(message, path, TOO_DEEP),
        Err(_) => Err(AllocError),
    }
}

/// Writes why a text is not read.
pub fn unread<A: Allocator>(
    alloc: A,
    message: &mut String<A>,
    path: &str,
    text: &[u8],
    fault: &ReadFault,
) -> Result<(), AllocError>
    ensures { OnOk result (ExplainsUnread path.now text.now fault.now (string_bytes message.old)
        (string_bytes message.new)) }
{
    match fault {
        ReadFault::TooLong => push_too_long(message, path),
        ReadFault::NotAscii => {
            not_ascii(message, path, text)?;
            message.push_str(ascii_hint(text))
        }
        ReadFault::Syntax(at) => {
            at_offset(message, path, text, *at, Wrong::Unexpected)?;
            push_hint(alloc, message, text, *at as usize)
        }
        ReadFault::TooDeep => too_deep(alloc, message, path, text),
        ReadFault::Memory => push_no_memory(message),
    }
}

/// Whether a fault is that memory ran out.
fn is_memory(fault: &ScopeFault) -> bool
    ensures { result ≡ is_memory fault.now }
{
    matches!(fault, ScopeFault::Memory)
}

/// Writes what is wrong with a program that has a fault of scopes, at its place.
fn located<A: Allocator + Copy>(
    alloc: A,
    message: &mut String<A>,
    path: &str,
    text: &[u8],
    fault: &ScopeFault,
) -> Result<(), AllocError>
    ensures { OnOk result (LocatesFault path.now text.now fault.now (string_bytes message.old)
        (string_bytes message.new)) }
{
    let words = words_of(alloc, text, fault)?;
    let what = Wrong::Word(words.as_str());
    at_offset(message, path, text, fault.offset(), what)
}

/// Writes why a program is not checked.
pub fn unchecked<A: Allocator + Copy>(
    alloc: A,
    message: &mut String<A>,
    path: &str,
    text: &[u8],
    fault: &ScopeFault,
) -> Result<(), AllocError>
    ensures { OnOk result (ExplainsFault path.now text.now fault.now (string_bytes message.old)
        (string_bytes message.new)) }
{
    if is_memory(fault) {
        push_no_memory(message)
    } else {
        located(alloc, message, path, text, fault)
    }
}

/// Writes the hint about the rounds of a check that was too large, if fewer may do.
fn push_fewer<A: Allocator>(
    message: &mut String<A>,
    rounds: u8,
    threads: usize,
) -> Result<(), AllocError>
    ensures { OnOk result
        (string_bytes message.new ≡ string_bytes message.old ++ fewer rounds threads) }
{
    if rounds < 2 {
        Ok(())
    } else if threads < 2 {
        message.push_str(ONE_ROUND)
    } else {
        write!(message, "{FEWER}{rounds}{FEWER_END}")
    }
}

/// Writes what helps if this limit of path edges was passed.
fn push_ways_out<A: Allocator>(message: &mut String<A>, edges: u32) -> Result<(), AllocError>
    ensures { OnOk result
        (string_bytes message.new ≡ string_bytes message.old ++ ways_out edges) }
{
    if edges == MOST_EDGES {
        write!(message, "{NO_HIGHER}")
    } else {
        write!(message, "{HIGHER}{MOST_EDGES}\n")
    }
}

/// Writes what to run if a limit of path edges was passed.
fn push_explore<A: Allocator>(message: &mut String<A>, path: &str) -> Result<(), AllocError>
    ensures { OnOk result (string_bytes message.new
        ≡ string_bytes message.old ++ explore_hint path.now) }
{
    message.push_str(EXPLORE)?;
    push_escaped(message, path)?;
    message.push_str("\n")
}

/// Writes that `main__` has more path edges than a limit.
fn push_main<A: Allocator>(
    message: &mut String<A>,
    path: &str,
    edges: u32,
) -> Result<(), AllocError>
    ensures { OnOk result
        (string_bytes message.new ≡ string_bytes message.old ++ main_line path.now edges) }
{
    push_escaped(message, path)?;
    write!(message, "{MAIN}{edges}{EDGES}")
}

/// Writes which procedure has more path edges than a limit: that whose name is at an offset, or `main__`.
fn over<A: Allocator>(
    message: &mut String<A>,
    path: &str,
    text: &[u8],
    at: Option<u32>,
    edges: u32,
) -> Result<(), AllocError>
    ensures { OnOk result
        (TellsOver path.now text.now at edges (string_bytes message.old)
        (string_bytes message.new)) }
{
    match at {
        Some(at) => at_offset(message, path, text, at, Wrong::Edges(edges)),
        None => push_main(message, path, edges),
    }
}

/// Writes which procedure has passed the limit of path edges, and what helps; nothing for an order that has no limit.
fn edge_limit<A: Allocator + Copy>(
    alloc: A,
    message: &mut String<A>,
    path: &str,
    text: &[u8],
    at: Option<u32>,
    order: Order,
) -> Result<(), AllocError>
    ensures { OnOk result (ExplainsLimit path.now text.now at order (string_bytes message.old)
        (string_bytes message.new)) }
{
    match order {
        Order::Check { rounds, edges, .. } => {
            over_limit(
                alloc,
                message,
                path,
                text,
                at,
                rounds.count(),
                edges.edges(),
            )
        }
        Order::Sequential { .. } => Ok(()),
    }
}

/// Writes which procedure has more path edges than a limit, and what helps.
fn over_limit<A: Allocator + Copy>(
    alloc: A,
    message: &mut String<A>,
    path: &str,
    text: &[u8],
    at: Option<u32>,
    rounds: u8,
    edges: u32,
) -> Result<(), AllocError>
    ensures { OnOk result (ExplainsOver path.now text.now at rounds edges (string_bytes message.old)
        (string_bytes message.new)) }
{
    let threads = threads_in(alloc, text)?;
    over(message, path, text, at, edges)?;
    push_ways_out(message, edges)?;
    push_fewer(message, rounds, threads)?;
    push_explore(message, path)
}

/// How many rounds an order names.
fn rounds_in(order: Order) -> u8
    ensures { result ≡ rounds_of order }
{
    match order {
        Order::Check { rounds, .. } | Order::Sequential { rounds } => rounds.count(),
    }
}

/// Writes that some procedure has too many places for this number of rounds.
fn push_wide<A: Allocator>(
    message: &mut String<A>,
    path: &str,
    rounds: u8,
) -> Result<(), AllocError>
    ensures { OnOk result
        (string_bytes message.new ≡ string_bytes message.old ++ wide_line path.now rounds) }
{
    push_escaped(message, path)?;
    write!(message, "{WIDE}{MOST_PLACES}{ROUNDS}{rounds}\n")
}

/// Writes what a place is, and how many of a procedure's places the globals take, of which there are so many.
fn push_places<A: Allocator>(
    message: &mut String<A>,
    places: u128,
    globals: usize,
    rounds: u8,
) -> Result<(), AllocError>
    ensures { OnOk result (string_bytes message.new
        ≡ string_bytes message.old ++ places_line places globals rounds) }
{
    let each = (u32::from(rounds) * 2).saturating_sub(1);
    let all = u128::from(each) * (globals as u128);
    let others = places.saturating_sub(all);
    write!(
        message,
        "{PLACES}{globals} * {each} = {all}{PLACES_END}{others}\n"
    )
}

/// Writes at its name which procedure has too many places, and what takes them.
fn push_wide_at<A: Allocator>(
    alloc: A,
    message: &mut String<A>,
    path: &str,
    text: &[u8],
    rounds: u8,
    wide: Wide,
) -> Result<(), AllocError>
    ensures { OnOk result (LocatesWide path.now text.now rounds wide (string_bytes message.old)
        (string_bytes message.new)) }
{
    let globals = globals_in(alloc, text)?;
    let what = Wrong::Wide(wide.places, rounds, MOST_PLACES);
    at_offset(message, path, text, wide.at, what)?;
    push_places(message, wide.places, globals, rounds)
}

/// Writes which procedure has too many places, and how many it needs for how many rounds.
fn too_wide<A: Allocator>(
    alloc: A,
    message: &mut String<A>,
    path: &str,
    text: &[u8],
    rounds: u8,
    wide: Option<Wide>,
) -> Result<(), AllocError>
    ensures { OnOk result (ExplainsWide path.now text.now rounds wide (string_bytes message.old)
        (string_bytes message.new)) }
{
    match wide {
        Some(wide) => push_wide_at(alloc, message, path, text, rounds, wide),
        None => push_wide(message, path, rounds),
    }
}

/// Writes what standard error says about a refusal: for a fault at a place a line `FILE:LINE:COLUMN: error: ` with what
/// is wrong there, the source line (at most 60 bytes of it before the place and 40 from it on, with `..` for what is
/// left out), and a caret under the place; for each other refusal one line. Each control character of the file's name
/// is written as an escape (`push_escaped`). Lines and columns are counted from 1, and each byte is a column. A line
/// `hint: ` follows if a rule of the language, or of the command line, may help. The memory for the tokens of the
/// text is taken from `alloc`. An error means that memory ran out; a part of the message may have been written.
pub fn explain<A: Allocator + Copy>(
    alloc: A,
    message: &mut String<A>,
    path: &str,
    text: &[u8],
    order: Order,
    refusal: &Refusal,
) -> Result<(), AllocError>
    ensures { OnOk result (Explains path.now text.now order refusal.now (string_bytes message.old)
        (string_bytes message.new)) }
{
    match refusal {
        Refusal::Unread(fault) => unread(alloc, message, path, text, fault),
        Refusal::Unchecked(fault) => unchecked(alloc, message, path, text, fault),
        Refusal::TooWide(wide) => too_wide(alloc, message, path, text, rounds_in(order), *wide),
        Refusal::EdgeLimit(at) => edge_limit(alloc, message, path, text, *at, order),
        Refusal::Memory => push_no_memory(message),
        Refusal::NoWorker => push_about(message, path, NO_THREAD),
        Refusal::Spent => push_about(message, path, NO_CALLS),
    }
}
