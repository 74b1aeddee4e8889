//! From the bytes of a text to a reply.

ghost use Rattle.std.specs.Prelude.{◌≡◌, ◌⊎◌, ◌≤◌, ◌++◌, IfErr, IfOk, None, Some, OnOk, true};
ghost use Rattle.std.specs.String.{string_bytes};
ghost use Rattle.checked.specs.Programs.{checked_tree};
ghost use Rattle.exploration.specs.Reports.{IsCause};
ghost use Rattle.refusals.specs.Lines.{memory_line};
ghost use Rattle.explorer.specs.Lines.{answer_line, answer_status, counts_line, found_words};
ghost use Rattle.explorer.specs.Lines.{line_behind, rounds_words, yes_or_no};
ghost use Rattle.explorer.specs.Refused.{IsProgramOf, IsToldAs, RefusalStands};
ghost use Rattle.explorer.specs.Replies.{Refuses, Replies, Reports, TellsOrLacks, TellsRefusal};
ghost use Rattle.streams.specs.Written.{bytes_of};
ghost use Rattle.explorer.specs.declared.refusal.Refusal.TheVariants as why;

use crate::refusal::{Refusal, line, status};
use exploration::{Answer, NoVerdict, Report, explore};
use explore_line::Order;
use naming::BySaturation;
use refusals::MEMORY_LINE;
use scopes::{Checked, check};
use source_graphs::wide_procedure;
use stack_sets::TakesTurns;
use std::alloc::{AllocError, Allocator};
use std::borrow::CowSlice;
use streams::Reply;
use syntax::read;

/// The reply if an allocation was refused: a fixed text, which takes no memory.
pub fn no_memory<A: Allocator>() -> Reply<Refusal, A>
    ensures bytes { bytes_of result ≡ memory_line }
    ensures status { result.status ≡ 3 }
    ensures refusal { result.refusal ≡ Some why.Memory }
{
    Reply {
        bytes: CowSlice::Borrowed(MEMORY_LINE.as_bytes()),
        status: 3,
        refusal: Some(Refusal::Memory),
    }
}

/// The reply to a text that gets no verdict: the line of the refusal, or, if the line has an offset and memory ran out
/// for it, the reply for lack of memory.
fn refused<A: Allocator>(alloc: A, refusal: Refusal) -> Reply<Refusal, A>
    ensures { TellsOrLacks refusal result }
{
    let status = status(&refusal);
    match line(alloc, &refusal) {
        Ok(bytes) => Reply {
            bytes,
            status,
            refusal: Some(refusal),
        },
        Err(_) => no_memory(),
    }
}

/// The checked program of a text.
fn checked<A: Allocator + Copy>(alloc: A, text: &[u8]) -> Result<Checked<A>, Refusal>
    ensures program { IfOk result (λ c. IsProgramOf text.now (checked_tree c)) }
    ensures stands { IfErr result (RefusalStands text.now) }
{
    let program = match read(alloc, text) {
        Ok(program) => program,
        Err(fault) => return Err(Refusal::Unread(fault)),
    };
    match check(alloc, program) {
        Ok(checked) => Ok(checked),
        Err(fault) => Err(Refusal::Unchecked(fault)),
    }
}

/// The refusal of a checked program that gets no report.
fn refusal_of<A: Allocator>(program: &Checked<A>, cause: NoVerdict) -> Refusal
    requires { IsCause (checked_tree program.now) cause }
    ensures { IsToldAs (checked_tree program.now) cause result }
{
    match cause {
        NoVerdict::TooWide => match wide_procedure(program) {
            Some(wide) => Refusal::TooWide(wide),
            None => unreachable!(),
        },
        NoVerdict::Memory => Refusal::Memory,
        NoVerdict::Limit(rounds) => Refusal::Limit(rounds),
    }
}

/// What an exploration reports of a text.
fn explored<T: TakesTurns<A>, A: Allocator + Copy>(
    alloc: A,
    text: &[u8],
    order: Order,
) -> Result<Report, Refusal>
    ensures report { IfOk result (Reports text.now order) }
    ensures stands { IfErr result (RefusalStands text.now) }
{
    let program = checked(alloc, text)?;
    match explore::<T, A, A>(alloc, &program, order.rounds, order.limit) {
        Ok(report) => Ok(report),
        Err(cause) => Err(refusal_of(&program, cause)),
    }
}

/// How it is written whether a report is settled.
fn yes_or_no(settled: bool) -> &'static str
    ensures { result.now ≡ yes_or_no settled }
{
    if settled { "yes" } else { "no" }
}

/// Writes how far an exploration has come.
fn push_rounds<A: Allocator>(lines: &mut String<A>, report: &Report) -> Result<(), AllocError>
    ensures { OnOk result
        (string_bytes lines.new ≡ string_bytes lines.old ++ rounds_words report.now) }
{
    let rounds = report.rounds;
    let settled = yes_or_no(report.settled);
    let turns = report.turns;
    write!(lines, "rounds {rounds} settled {settled} turns {turns}")
}

/// Writes what an exploration has found.
fn push_found<A: Allocator>(lines: &mut String<A>, report: &Report) -> Result<(), AllocError>
    ensures { OnOk result
        (string_bytes lines.new ≡ string_bytes lines.old ++ found_words report.now) }
{
    let heads = report.heads;
    let tuples = report.tuples;
    let nodes = report.nodes;
    write!(lines, " heads {heads} tuples {tuples} nodes {nodes}\n")
}

/// The verdict, followed by the counts of the exploration.
fn with_counts<A: Allocator>(alloc: A, word: &str, report: &Report) -> Result<String<A>, AllocError>
    ensures { IfOk result (λ s. string_bytes s ≡ word.now ++ counts_line report.now) }
{
    let mut lines = String::from_str(alloc, word)?;
    push_rounds(&mut lines, report)?;
    push_found(&mut lines, report)?;
    Ok(lines)
}

/// The reply for a report: the answer and, if it is asked for, the counts. Only the counts take memory.
fn reported<A: Allocator>(alloc: A, report: &Report, stats: bool) -> Reply<Refusal, A>
    ensures { (bytes_of result ≡ answer_line report.now.answer ++ line_behind stats report.now)
        × (result.status ≡ answer_status report.now.answer) × (result.refusal ≡ None)
        ⊎ (stats ≡ true) × TellsRefusal why.Memory result }
{
    let (word, status) = match report.answer {
        Answer::Safe => ("safe\n", 0),
        Answer::Unsafe => ("unsafe\n", 1),
    };
    if !stats {
        return Reply::fixed(word, status);
    }
    match with_counts(alloc, word, report) {
        Ok(lines) => Reply {
            bytes: CowSlice::Owned(lines.into_bytes()),
            status,
            refusal: None,
        },
        Err(_) => no_memory(),
    }
}

/// `answer` by turns that `T` makes.
pub fn answer_with<T: TakesTurns<A>, A: Allocator + Copy>(
    alloc: A,
    text: &[u8],
    order: Order,
) -> Reply<Refusal, A>
    ensures answers { result.status ≤ 1 → Replies text.now order (bytes_of result) result.status }
    ensures silent { result.status ≤ 1 → result.refusal ≡ None }
    ensures refuses { 2 ≤ result.status → Refuses text.now order result }
    ensures status { result.status ≤ 3 }
{
    match explored::<T, A>(alloc, text, order) {
        Ok(report) => reported(alloc, &report, order.stats),
        Err(why) => refused(alloc, why),
    }
}

/// The reply to a text. If its status is 0 or 1, the text is that of a checked program, and the reply is `unsafe` with
/// status 1 if and only if some run of the rounds asked for fails an assert, and otherwise `safe` with 0; with `stats`
/// a line follows that counts what was explored. If the status is 2, a fault of the text stands, and the bytes are its
/// line. If it is 3, there is no verdict: memory ran out, or more was found and met than the limit. A reply with status
/// 2 or 3 has the refusal that stands, and one with 0 or 1 has none. It waits for nobody.
pub fn answer<A: Allocator + Copy>(alloc: A, text: &[u8], order: Order) -> Reply<Refusal, A>
    ensures answers { result.status ≤ 1 → Replies text.now order (bytes_of result) result.status }
    ensures silent { result.status ≤ 1 → result.refusal ≡ None }
    ensures refuses { 2 ≤ result.status → Refuses text.now order result }
    ensures status { result.status ≤ 3 }
{
    answer_with::<BySaturation, A>(alloc, text, order)
}
