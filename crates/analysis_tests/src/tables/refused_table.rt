//! A table that is refused memory.

ghost use Rattle.std.specs.Prelude.{◌<◌, length};
ghost use Rattle.flow_graph.specs.Drawn.{graphs_of};
ghost use Rattle.summaries.specs.Tables.{IsTable};

use crate::tables::tables::{message_of, take};
use cases::{Outcome, Sweep, Swept};
use flow_graph::Graphs;
use path_sets::{DiagramEdges, OrderedEdges, PathSet};
use scarce::Scarce;
use std::alloc::{AllocError, Allocator, Global};
use summaries::{Caller, Due, EdgeLimit, Table, TableFault};

/// A message and the procedure that it is for.
type Mail = (u8, Due);

/// A call of a table.
#[derive(Clone, Copy)]
enum Call {
    Entry,
    Summary,
    Next,
}

/// The result of a table.
#[derive(Clone, Copy)]
enum Came {
    /// No allocation was refused, and it answered all that was wanted.
    Whole,
    /// One was refused to this call, which returned lack of memory, and each later call does.
    Refused(Call),
    /// It answered something else.
    Other,
}

/// The calls to which an allocation was refused.
#[derive(Clone, Copy)]
struct Seen {
    entry: bool,
    summary: bool,
    next: bool,
}

impl Seen {
    fn add(&mut self, call: Call) {
        match call {
            Call::Entry => self.entry = true,
            Call::Summary => self.summary = true,
            Call::Next => self.next = true,
        }
    }

    /// Adds the call of a run that was refused memory.
    fn note(&mut self, came: Came) -> Outcome {
        match came {
            Came::Whole => Outcome::Whole,
            Came::Refused(call) => {
                self.add(call);
                Outcome::Memory
            }
            Came::Other => Outcome::Other,
        }
    }

    fn write(self, out: &mut String) -> Result<(), AllocError> {
        write!(out, "refused in")?;
        write!(out, "{}", if self.entry { " entry" } else { "" })?;
        write!(out, "{}", if self.summary { " summary" } else { "" })?;
        write!(out, "{}", if self.next { " next" } else { "" })
    }
}

/// The call that takes a message.
fn call_of(due: &Due) -> Call {
    match due {
        Due::Entry { .. } => Call::Entry,
        Due::Summary { .. } => Call::Summary,
    }
}

/// Adds all that the table owes.
fn add_owed<G: Allocator, A: Allocator + Copy, S: PathSet<A>>(
    table: &mut Table<'_, G, A, S>,
    mails: &mut Vec<Mail>,
) -> Result<(), TableFault>
    requires { IsTable S.members table.old }
    ensures { IsTable S.members table.new }
{
    'turns: for _turn in 0..1000u32 {
        let Some(mail) = table.next()? else {
            break;
        };
        mails.push(mail)?;
    }
    Ok(())
}

/// Adds all that the table owes after each message.
fn add_owed_after_each<G: Allocator, A: Allocator + Copy, S: PathSet<A>>(
    table: &mut Table<'_, G, A, S>,
    mails: &mut Vec<Mail>,
    words: &str,
) -> Result<(), TableFault>
    requires { IsTable S.members table.old }
{
    'words: for word in words.split_whitespace() {
        take(table, message_of(word))?;
        add_owed(table, mails)?;
    }
    Ok(())
}

/// The same for the table of a procedure, whose edges are kept in a set of the type `S`, in memory of `room`.
fn add_owed_by<G: Allocator, A: Allocator + Copy, S: PathSet<A>>(
    room: A,
    mails: &mut Vec<Mail>,
    graphs: &Graphs<G>,
    procedure: u8,
    limit: EdgeLimit,
    words: &str,
) -> Result<(), TableFault>
    requires { procedure < length (graphs_of graphs.now) }
{
    let mut table: Table<'_, G, A, S> = Table::new(room, graphs, procedure, limit);
    let added = add_owed_after_each(&mut table, mails, words);
    drop(table);
    added
}

/// Whether the table answers these messages, from the one numbered `at` on, until it owes no more; `at` is then
/// past them.
fn answers<G: Allocator, A: Allocator + Copy, S: PathSet<A>>(
    table: &mut Table<'_, G, A, S>,
    wanted: &[Mail],
    at: &mut usize,
) -> Result<bool, TableFault>
    requires { IsTable S.members table.old }
    ensures { IsTable S.members table.new }
{
    'turns: for _turn in 0..1000u32 {
        let Some(mail) = table.next()? else {
            break;
        };
        if wanted.get(*at).copied() != Some(mail) {
            return Ok(false);
        }
        *at = at.wrapping_add(1);
    }
    Ok(true)
}

/// The table takes each message and answers all that it then owes. Returns whether that is what was wanted, or the
/// call that failed.
fn worked<G: Allocator, A: Allocator + Copy, S: PathSet<A>>(
    table: &mut Table<'_, G, A, S>,
    words: &str,
    wanted: &[Mail],
) -> Result<bool, (Call, TableFault)>
    requires { IsTable S.members table.old }
    ensures { IsTable S.members table.new }
{
    let mut at = 0usize;
    'words: for word in words.split_whitespace() {
        let due = message_of(word);
        let call = call_of(&due);
        if let Err(fault) = take(table, due) {
            return Err((call, fault));
        }
        match answers(table, wanted, &mut at) {
            Ok(true) => {}
            Ok(false) => return Ok(false),
            Err(fault) => return Err((Call::Next, fault)),
        }
    }
    Ok(at == wanted.len())
}

/// Whether each call of a table returns lack of memory.
fn stays<G: Allocator, A: Allocator + Copy, S: PathSet<A>>(table: &mut Table<'_, G, A, S>) -> bool
    requires { IsTable S.members table.old }
{
    table.take_entry(Caller::Starter, 0) == Err(TableFault::Memory)
        && table.take_summary(1, 0, 0, false) == Err(TableFault::Memory)
        && table.next() == Err(TableFault::Memory)
}

/// The result of a table, in whose room an allocation may be refused.
fn came_of<G: Allocator, A: Allocator + Copy, S: PathSet<A>>(
    scarce: &Scarce<Global>,
    table: &mut Table<'_, G, A, S>,
    words: &str,
    wanted: &[Mail],
) -> Came
    requires { IsTable S.members table.old }
{
    match worked(table, words, wanted) {
        Ok(true) if !scarce.refused() => Came::Whole,
        Err((call, TableFault::Memory)) if scarce.refused() => {
            if stays(table) {
                Came::Refused(call)
            } else {
                Came::Other
            }
        }
        _ => Came::Other,
    }
}

/// The same for the table of a procedure, if there is such a one, whose edges are kept in a set of the type `S`.
fn came_in<G: Allocator, A: Allocator + Copy, S: PathSet<A>>(
    room: A,
    scarce: &Scarce<Global>,
    graphs: &Graphs<G>,
    procedure: u8,
    limit: EdgeLimit,
    words: &str,
    wanted: &[Mail],
) -> Came {
    if procedure as usize >= graphs.len() {
        return Came::Other;
    }
    let mut table: Table<'_, G, A, S> = Table::new(room, graphs, procedure, limit);
    let came = came_of(scarce, &mut table, words, wanted);
    drop(table);
    came
}

/// Writes to which calls of the table of a procedure an allocation was refused, whose edges are kept in an ordered set
/// or in diagrams.
fn write_in_turn(
    alloc: Global,
    out: &mut String,
    sweep: Sweep,
    ordered: bool,
    graphs: &Graphs<Global>,
    procedure: u8,
    limit: EdgeLimit,
    words: &str,
    wanted: &[Mail],
) -> Result<(), AllocError> {
    let mut seen = Seen {
        entry: false,
        summary: false,
        next: false,
    };
    let swept = sweep.of(alloc, |room: &Scarce<Global>| {
        let came = if ordered {
            came_in::<_, _, OrderedEdges<_>>(room, room, graphs, procedure, limit, words, wanted)
        } else {
            came_in::<_, _, DiagramEdges<_>>(room, room, graphs, procedure, limit, words, wanted)
        };
        seen.note(came)
    });
    match swept {
        Swept::Kept(_) => seen.write(out),
        _ => write!(out, "{swept:?}"),
    }
}

/// Writes it of both kinds of sets, against the answers of a table with ample memory.
pub fn write_both(
    alloc: Global,
    out: &mut String,
    sweep: Sweep,
    graphs: &Graphs<Global>,
    procedure: u8,
    limit: EdgeLimit,
    words: &str,
) -> Result<(), AllocError>
    requires { procedure < length (graphs_of graphs.now) }
{
    let mut wanted = Vec::new(alloc);
    let owed = add_owed_by::<_, _, OrderedEdges<_>>(
        alloc,
        &mut wanted,
        graphs,
        procedure,
        limit,
        words,
    );
    if owed.is_err() {
        return write!(out, "fault");
    }
    let wanted = wanted.as_slice();
    write!(out, "ordered: ")?;
    write_in_turn(
        alloc, out, sweep, true, graphs, procedure, limit, words, wanted,
    )?;
    write!(out, "\ndiagrams: ")?;
    write_in_turn(
        alloc, out, sweep, false, graphs, procedure, limit, words, wanted,
    )
}
