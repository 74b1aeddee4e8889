//! The tabulation of a whole program on one thread.

ghost use Rattle.std.specs.Prelude.{◌≡◌, ◌↔◌, ℕ, List, length, map, IfOk, IfErr, OnOk, Err, ◌⊎◌};
ghost use Rattle.language.specs.Step.{Program};
ghost use Rattle.language.specs.Sequential.{SomeBad};
ghost use Rattle.flow_graph.specs.Drawn.{bad_of, graphs_of};
ghost use Rattle.flow_graph.specs.Graphs.{AreDrawnFrom};
ghost use Rattle.summaries.specs.declared.table.Table.{Table};
ghost use Rattle.summaries.specs.Tables.{graph_of, IsTable, TableTakes};
ghost use Rattle.summaries.specs.Tabulated.{AreSummaries, SomePairBad, HasMoreEdges, no_verdict};
ghost use Rattle.summaries.specs.Together.{opening, HaveLimit, AreNew, AreTables, AreQuietBefore};
ghost use Rattle.summaries.specs.Together.{AreFull, AreReadOff};
ghost use Rattle.path_sets.specs.EdgeLimits.{most_of};

use crate::due::{Caller, Due};
use crate::no_verdict::NoVerdict;
use crate::reading::read;
use crate::summaries::{Summaries, Summary};
use crate::table::Table;
use crate::table_fault::TableFault;
use flow_graph::Graphs;
use path_sets::{EdgeLimit, Halves, PathSet};
use std::alloc::{AllocError, Allocator};

/// The tables of all procedures, by number, which have taken nothing yet.
fn tables_of<'g, G: Allocator, A: Allocator + Copy, S: PathSet<A>>(
    alloc: A,
    graphs: &'g Graphs<G>,
    limit: EdgeLimit,
) -> Result<Vec<Table<'g, G, A, S>, A>, AllocError>
    ensures new { IfOk result (λ ts. AreNew S.members ts.items) }
    ensures graphs { IfOk result (λ ts. map graph_of ts.items ≡ graphs_of graphs.now) }
    ensures limit { IfOk result (λ ts. HaveLimit (most_of limit) ts.items) }
{
    let mut tables = Vec::new(alloc);
    for procedure in 0..graphs.len() as u8 {
        tables.push(Table::new(alloc, graphs, procedure, limit))?;
    }
    Ok(tables)
}

/// The receiver's table takes a message, as `take_entry` and `take_summary` do.
pub fn deliver<G: Allocator, A: Allocator + Copy, S: PathSet<A>>(
    table: &mut Table<'_, G, A, S>,
    due: Due,
) -> Result<(), TableFault>
    requires { IsTable S.members table.old }
    ensures { TableTakes S.members due result table.old table.new }
{
    match due {
        Due::Entry { caller, a } => table.take_entry(caller, a.word()),
        Due::Summary { p, a, b, r } => table.take_summary(p, a.word(), b.word(), r),
    }
}

/// The starter enters procedure 0, and the tables take each other's messages until none owes any. `last` is the number
/// of the table that was called last: if there is a fault, it is that table's.
fn run<G: Allocator, A: Allocator + Copy, S: PathSet<A>>(
    tables: &mut Vec<Table<'_, G, A, S>, A>,
    last: &mut usize,
) -> Result<(), TableFault>
    ghost program: { Program }
    requires { AreTables S.members program (λ x. x ≡ opening) tables.old.items }
    ensures tables { OnOk result (AreTables S.members program (λ x. ⊥) tables.new.items) }
    ensures quiet { OnOk result
        (AreQuietBefore S.members (length tables.new.items) tables.new.items) }
    ensures limits { (n : ℕ) → HaveLimit n tables.old.items
        → OnOk result (HaveLimit n tables.new.items) }
    ensures limit { result ≡ Err TableFault.EdgeLimit → (n : ℕ) → HaveLimit n tables.old.items
        → HasMoreEdges program last.new n }
{
    if tables.is_empty() {
        return Ok(());
    }
    let opening = Due::Entry {
        caller: Caller::Starter,
        a: Halves::new(0),
    };
    *last = 0;
    deliver(&mut tables[0], opening)?;
    let mut at = 0;
    // The tables before `at` owe no message.
    while at < tables.len() {
        *last = at;
        match tables[at].next()? {
            Some((to, due)) => {
                let to = to as usize;
                *last = to;
                deliver(&mut tables[to], due)?;
                at = at.min(to);
            }
            None => at += 1,
        }
    }
    Ok(())
}

/// The summaries of the program that the graphs are drawn from, by what was read off the tables of all its procedures,
/// which owe each other nothing.
pub fn collect<G: Allocator, A: Allocator, S: PathSet<A>>(
    graphs: &Graphs<G>,
    procedures: Vec<Summary<A>, A>,
) -> Summaries<A>
    ensures summaries { (p : Program) (ts : List (Table G A S)) → AreFull S.members p ts
        → AreReadOff ts procedures.items → AreSummaries p result }
    ensures bad { (p : Program) (ts : List (Table G A S)) → AreFull S.members p ts
        → AreReadOff ts procedures.items → SomePairBad result ↔ SomeBad p (bad_of graphs.now) }
{
    let bad = graphs.bad();
    Summaries { procedures, bad }
}

/// Why there is no verdict, if the table of a procedure has failed.
fn no_verdict(procedure: usize, fault: TableFault) -> NoVerdict
    ensures { result ≡ no_verdict procedure fault }
{
    match fault {
        TableFault::Memory => NoVerdict::Memory,
        TableFault::EdgeLimit => NoVerdict::EdgeLimit(procedure),
    }
}

/// The summaries of a program by its flow graphs, if no procedure has more path edges than the limit; the path edges
/// are kept in sets of the type `S`. `EdgeLimit` names a procedure that has more.
pub fn tabulate<G: Allocator, A: Allocator + Copy, S: PathSet<A>>(
    alloc: A,
    graphs: &Graphs<G>,
    limit: EdgeLimit,
) -> Result<Summaries<A>, NoVerdict>
    ghost program: { Program }
    requires { AreDrawnFrom program (graphs_of graphs.now) }
    ensures summaries { IfOk result (λ s. AreSummaries program s) }
    ensures bad { IfOk result (λ s. SomePairBad s ↔ SomeBad program (bad_of graphs.now)) }
    ensures few { IfOk result (λ s. (q : ℕ) → ¬ HasMoreEdges program q (most_of limit)) }
    ensures limit { (q : ℕ) → result ≡ Err (NoVerdict.EdgeLimit q)
        → HasMoreEdges program q (most_of limit) }
    ensures cause { IfErr result
        (λ e. (e ≡ NoVerdict.Memory) ⊎ ((q : ℕ) × (e ≡ NoVerdict.EdgeLimit q))) }
{
    let mut tables: Vec<Table<'_, G, A, S>, A> = tables_of(alloc, graphs, limit)?;
    let mut last = 0;
    match run(&mut tables, &mut last) {
        Ok(()) => Ok(collect::<G, A, S>(graphs, read(alloc, &tables)?)),
        Err(fault) => Err(no_verdict(last, fault)),
    }
}
