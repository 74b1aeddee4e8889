//! What tables found, as summaries.

ghost use Rattle.std.specs.Prelude.{◌≡◌, ◌↔◌, ◌++◌, ℕ, map, Some, OnOk, IfOk, IsTrue, nat_eq};
ghost use Rattle.language.specs.Lists.{Member};
ghost use Rattle.summaries.specs.declared.due.Caller.{Caller};
ghost use Rattle.summaries.specs.declared.pair.Pair.{Pair};
ghost use Rattle.groups.specs.Under.{under};
ghost use Rattle.summaries.specs.Links.{last_links};
ghost use Rattle.summaries.specs.Exits.{pair, pair_at, count_of, LeadsTo};
ghost use Rattle.summaries.specs.Readings.{AddsPairsOf};
ghost use Rattle.summaries.specs.Tabulated.{IsAscending, ArePairsAscending};
ghost use Rattle.summaries.specs.Together.{AreReadOff, IsReadOff, IsSummaryOf};

use crate::due;
use crate::exits::Exits;
use crate::found::Found;
use crate::long_list::append;
use crate::pair::Pair;
use crate::summaries::Summary;
use crate::table::Table;
use flow_graph::Exit;
use groups::Groups;
use language::Word;
use path_sets::PathSet;
use std::alloc::{AllocError, Allocator};

/// The valuations with which a procedure is entered, ascending.
fn entries<A: Allocator + Copy>(
    alloc: A,
    callers: &Groups<Word, due::Caller, A>,
) -> Result<Vec<Word, A>, AllocError>
    ensures ascend { IfOk result (λ v. IsAscending v.items) }
    ensures entries { IfOk result (λ v. (a : ℕ) → Member a v.items
        ↔ ((from : Caller) × Member from (under nat_eq callers.now.by_key a))) }
{
    let count = callers.by_key.len();
    let mut entries = Vec::new(alloc);
    for at in 0..count {
        let Some((entry, from)) = callers.by_key.get_index(at) else {
            unreachable!()
        };
        if !from.as_slice().is_empty() {
            append(&mut entries, *entry)?;
        }
    }
    entries.sort_unstable();
    Ok(entries)
}

/// Appends the pair of an entry with each of these exits, in their order.
fn append_pairs<A: Allocator>(
    pairs: &mut Vec<Pair, A>,
    entry: Word,
    left: &[Exit],
) -> Result<(), AllocError>
    ensures { OnOk result (pairs.new.items ≡ pairs.old.items ++ map (pair entry) left.now) }
{
    for exit in left {
        let pair = Pair {
            a: entry,
            b: exit.globals,
            r: exit.result,
        };
        append(pairs, pair)?;
    }
    Ok(())
}

/// Adds the pairs of an entry, sorted among themselves. A link leads to the last of them. `left` is overwritten.
// Exits are sorted instead of pairs, since they are smaller and pairs of one entry differ in nothing else.
fn add_pairs_of<A: Allocator + Copy>(
    pairs: &mut Vec<Pair, A>,
    left: &mut Vec<Exit, A>,
    exits: &Exits<A>,
    entry: Word,
    last: u32,
) -> Result<(), AllocError>
    requires { LeadsTo (pair_at exits.now) entry (count_of exits.now) last }
    ensures { OnOk result (AddsPairsOf exits.now entry pairs.old.items pairs.new.items) }
{
    left.clear();
    let mut link = last;
    'links: while link > 0 {
        let (exit, before) = exits.left_at(link - 1);
        append(left, exit)?;
        link = before;
    }
    left.sort_unstable();
    append_pairs(pairs, entry, left)
}

/// The entries, ascending, each with the link to its last pair.
fn entries_left<A: Allocator + Copy>(
    alloc: A,
    exits: &Exits<A>,
) -> Result<Vec<(Word, u32), A>, AllocError>
    ensures { IfOk result
        (λ v. (known : ℕ × ℕ) → Member known v.items ↔ Member known (last_links exits.now.by_entry.entries)) }
{
    let count = exits.by_entry.len();
    let mut entries = Vec::with_capacity(alloc, count)?;
    for at in 0..count {
        let Some((entry, known)) = exits.by_entry.get_index(at) else {
            unreachable!()
        };
        append(&mut entries, (*entry, known.last))?;
    }
    entries.sort_unstable();
    Ok(entries)
}

/// The pairs of these entries, entry by entry. With each entry comes the link to its last pair.
fn pairs_by_entry<A: Allocator + Copy>(
    alloc: A,
    exits: &Exits<A>,
    entries: &[(Word, u32)],
) -> Result<Vec<Pair, A>, AllocError>
    requires { (known : ℕ × ℕ)
        → Member known entries.now ↔ Member known (last_links exits.now.by_entry.entries) }
    ensures { IfOk result (λ v. (x : Pair) → Member x v.items
        ↔ ((at : ℕ) × (pair_at exits.now at ≡ Some x))) }
{
    let mut pairs = Vec::with_capacity(alloc, exits.pairs.len())?;
    let mut left = Vec::new(alloc);
    for entry in entries {
        add_pairs_of(&mut pairs, &mut left, exits, entry.0, entry.1)?;
    }
    Ok(pairs)
}

/// Whether each pair is less than the next.
fn are_ascending(pairs: &[Pair]) -> bool
    ensures { IsTrue result ↔ ArePairsAscending pairs.now }
{
    pairs.is_sorted_by(|pair, next| pair < next)
}

/// The pairs, ascending.
// The few pairs of each entry are sorted alone, which is faster than all at once. They ascend then, since no pair is
// kept twice and entries ascend; but no contract of these sorts says so, so it is looked at.
fn pairs<A: Allocator + Copy>(alloc: A, exits: &Exits<A>) -> Result<Vec<Pair, A>, AllocError>
    ensures ascend { IfOk result (λ v. ArePairsAscending v.items) }
    ensures pairs { IfOk result (λ v. (x : Pair) → Member x v.items
        ↔ ((at : ℕ) × (pair_at exits.now at ≡ Some x))) }
{
    let entries = entries_left(alloc, exits)?;
    let mut pairs = pairs_by_entry(alloc, exits, &entries)?;
    if are_ascending(&pairs) {
        return Ok(pairs);
    }
    pairs.sort_unstable();
    pairs.dedup();
    Ok(pairs)
}

/// The entries and the exits of a procedure, as a summary.
fn summary_of<A: Allocator + Copy>(
    alloc: A,
    callers: &Groups<Word, due::Caller, A>,
    exits: &Exits<A>,
) -> Result<Summary<A>, AllocError>
    ensures { IfOk result (IsSummaryOf callers.now exits.now) }
{
    let entries = entries(alloc, callers)?;
    let pairs = pairs(alloc, exits)?;
    Ok(Summary { entries, pairs })
}

/// What was found, as a summary. First all memory that this is not read from is given back.
fn read_found<A: Allocator + Copy>(alloc: A, found: Found<A>) -> Result<Summary<A>, AllocError>
    ensures { IfOk result (IsReadOff found) }
{
    let Found {
        entries,
        calls,
        exits,
        outbox,
        expanded,
        pending,
        last_exit: _,
        last_entry: _,
    } = found;
    drop(calls);
    drop(outbox);
    drop(expanded);
    drop(pending);
    summary_of(alloc, &entries, &exits)
}

/// What a table found. First the table gives back all memory that this is not read from.
pub fn read_off<G: Allocator, A: Allocator + Copy, S: PathSet<A>>(
    alloc: A,
    table: Table<'_, G, A, S>,
) -> Result<Summary<A>, AllocError>
    ensures { IfOk result (IsReadOff table.entry.found) }
{
    let Table {
        graph: _,
        procedure: _,
        limit: _,
        edges,
        found,
        fault: _,
    } = table;
    drop(edges);
    read_found(alloc, found)
}

/// What the tables found, table by table.
pub fn read<G: Allocator, A: Allocator + Copy, S: PathSet<A>>(
    alloc: A,
    tables: &[Table<'_, G, A, S>],
) -> Result<Vec<Summary<A>, A>, AllocError>
    ensures { IfOk result (λ v. AreReadOff tables.now v.items) }
{
    let mut summaries = Vec::new(alloc);
    for table in tables {
        summaries.push(summary_of(alloc, &table.found.entries, &table.found.exits)?)?;
    }
    Ok(summaries)
}
