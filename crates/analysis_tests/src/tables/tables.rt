//! What a table owes after each message.

ghost use Rattle.std.specs.Prelude.{◌≡◌};
ghost use Rattle.summaries.specs.Tables.{IsTable};

use crate::sequential::rewritten;
use crate::tables::refused_table::write_both;
use cases::{Sweep, first, first_word};
use flow_graph::{Graphs, graphs};
use language::Word;
use path_sets::{Halves, OrderedEdges, PathSet};
use std::alloc::{AllocError, Allocator, Global};
use summaries::{Caller, Due, EdgeLimit, Table, TableFault};

/// A procedure's number in front of a point, and what comes after it; 255 if there is none.
fn procedure(text: &str) -> (u8, &str) {
    let (number, others) = text.split_once('.').unwrap_or((text, ""));
    (number.parse::<u8>().unwrap_or(255), others)
}

/// The message that a word stands for.
pub fn message_of(word: &str) -> Due {
    match word.strip_prefix('s') {
        Some(numbers) => {
            let (p, numbers) = procedure(numbers);
            let (a, numbers) = first(numbers);
            let (b, result) = first(numbers);
            Due::Summary {
                p,
                a: Halves::new(a as Word),
                b: Halves::new(b as Word),
                r: result == "1",
            }
        }
        None => {
            let (caller, a) = word.split_once('.').unwrap_or((word, ""));
            let a = Halves::new(first(a).0 as Word);
            match caller.parse::<u8>() {
                Ok(p) => Due::Entry {
                    caller: Caller::Proc(p),
                    a,
                },
                Err(_) => Due::Entry {
                    caller: Caller::Starter,
                    a,
                },
            }
        }
    }
}

/// A message after its receiver, in the words of the cases.
fn word_of(alloc: Global, to: u8, due: Due) -> Result<String, AllocError> {
    match due {
        Due::Entry { caller, a } => {
            let a = a.word();
            match caller {
                Caller::Starter => format!(in alloc; "{to}<S.{a}"),
                Caller::Proc(p) => format!(in alloc; "{to}<{p}.{a}"),
            }
        }
        Due::Summary { p, a, b, r } => {
            let (a, b) = (a.word(), b.word());
            let result = if r { ".1" } else { "" };
            format!(in alloc; "{to}<s{p}.{a}.{b}{result}")
        }
    }
}

/// The table takes a message.
pub fn take<G: Allocator, A: Allocator + Copy, S: PathSet<A>>(
    table: &mut Table<'_, G, A, S>,
    due: Due,
) -> Result<(), TableFault>
    requires { IsTable S.members table.old }
    ensures { IsTable S.members table.new }
{
    match due {
        Due::Entry { caller, a } => table.take_entry(caller, a.word()),
        Due::Summary { p, a, b, r } => table.take_summary(p, a.word(), b.word(), r),
    }
}

/// All that the table owes, in the order of the words.
fn owed<G: Allocator, A: Allocator + Copy, S: PathSet<A>>(
    alloc: Global,
    table: &mut Table<'_, G, A, S>,
) -> Result<Vec<String>, AllocError>
    requires { IsTable S.members table.old }
    ensures { IsTable S.members table.new }
{
    let mut words = Vec::new(alloc);
    'turns: for _turn in 0..1000u32 {
        let Ok(Some((to, due))) = table.next() else {
            break;
        };
        words.push(word_of(alloc, to, due)?)?;
    }
    words.sort()?;
    Ok(words)
}

/// Writes some words, each after a blank.
fn write_words(out: &mut String, words: &[String]) -> Result<(), AllocError> {
    for word in words {
        write!(out, " {word}")?;
    }
    Ok(())
}

/// Writes what the table owes after a message.
fn write_owed<G: Allocator, A: Allocator + Copy, S: PathSet<A>>(
    alloc: Global,
    out: &mut String,
    table: &mut Table<'_, G, A, S>,
    word: &str,
) -> Result<(), AllocError>
    requires { IsTable S.members table.old }
    ensures { IsTable S.members table.new }
{
    write!(out, "{word}:")?;
    if take(table, message_of(word)).is_err() {
        return write!(out, " fault");
    }
    match owed(alloc, table) {
        Ok(words) => write_words(out, words.as_slice()),
        Err(_) => write!(out, " no memory"),
    }
}

/// Writes what the table owes after each message.
fn write_turns<G: Allocator, A: Allocator + Copy, S: PathSet<A>>(
    alloc: Global,
    out: &mut String,
    table: &mut Table<'_, G, A, S>,
    words: &str,
) -> Result<(), AllocError>
    requires { IsTable S.members table.old }
{
    'words: for word in words.split_whitespace() {
        write_owed(alloc, out, table, word)?;
        write!(out, "\n")?;
    }
    Ok(())
}

/// Writes it of a procedure of these graphs, if there is such a one, with ordered sets.
fn of_graphs(
    alloc: Global,
    out: &mut String,
    graphs: &Graphs<Global>,
    procedure: u64,
    words: &str,
    sweep: Option<Sweep>,
) -> Result<(), AllocError> {
    let (Ok(procedure), Some(limit)) = (u8::try_from(procedure), EdgeLimit::new(1000)) else {
        return write!(out, "no such procedure");
    };
    if procedure as usize >= graphs.len() {
        return write!(out, "no such procedure");
    }
    if let Some(sweep) = sweep {
        return write_both(alloc, out, sweep, graphs, procedure, limit, words);
    }
    let mut table: Table<'_, Global, Global, OrderedEdges<Global>> = Table::new(
        alloc, graphs, procedure, limit,
    );
    write_turns(alloc, out, &mut table, words)
}

/// Writes what the table of a procedure owes after each message: the procedure, the rounds and the messages, and the
/// text; or, with a sweep, which of its calls are refused memory.
pub fn messages(
    alloc: Global,
    out: &mut String,
    asked: &str,
    text: &str,
    sweep: Option<Sweep>,
) -> Result<(), AllocError> {
    let (procedure, rest) = first_word(asked);
    let (rounds, words) = rest.split_once(": ").unwrap_or((rest, ""));
    let Some(sequential) = rewritten(alloc, text, first(rounds).0) else {
        return write!(out, "not rewritten");
    };
    match graphs(&alloc, &sequential) {
        Ok(graphs) => of_graphs(alloc, out, &graphs, procedure, words, sweep),
        Err(_) => Err(AllocError),
    }
}
