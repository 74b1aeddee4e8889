//! The counts of the procedures of a program's rewriting, a line for each.

ghost use Rattle.std.specs.Prelude.{◌≡◌, ◌≤◌, ◌<◌, ◌++◌, OnOk, Some, length, slice_get};
ghost use Rattle.std.specs.String.{string_bytes};
ghost use Rattle.trees.specs.Trees.{tree_of};
ghost use Rattle.cli.specs.Counts.{counts_line, counts_lines, procedure_names};
ghost use Rattle.cli.specs.Counted.{counted_each};

use post_ledger::Mailbox;
use std::alloc::{AllocError, Allocator};
use summaries::{Due, Summaries};
use trees::Program;

/// The name of a procedure of the rewriting.
fn name_of<N: Allocator>(program: &Program<N>, number: u8) -> &str
    requires { number < length (procedure_names (tree_of program.now)) }
    ensures { slice_get (procedure_names (tree_of program.now)) number ≡ Some result.now }
{
    if number == 0 {
        "main__"
    } else {
        program.procs[number as usize - 1].name.text.as_str()
    }
}

/// Writes the line of a procedure.
fn push_line<A: Allocator>(
    lines: &mut String<A>,
    name: &str,
    entries: usize,
    pairs: usize,
    taken: usize,
) -> Result<(), AllocError>
    ensures { OnOk result (string_bytes lines.new ≡ string_bytes lines.old
        ++ counts_line name.now entries pairs taken) }
{
    write!(
        lines,
        "{name} entries {entries} pairs {pairs} taken {taken}\n"
    )
}

/// Writes a line for each procedure of a program's rewriting, in the order of their numbers: its name, how many entry
/// valuations and pairs the summaries have of it, and how many messages were taken from its mailbox. An error means
/// that memory ran out; a part may have been written.
pub(crate) fn push_counts<A: Allocator, N: Allocator, S: Allocator, H: Allocator>(
    lines: &mut String<A>,
    program: &Program<N>,
    summaries: &Summaries<S>,
    mailboxes: &[Mailbox<Due, H>],
) -> Result<(), AllocError>
    requires all { length summaries.now.procedures
        ≡ length (procedure_names (tree_of program.now)) }
    requires boxes { length mailboxes.now ≡ length (procedure_names (tree_of program.now)) }
    requires few { length (procedure_names (tree_of program.now)) ≤ 32 }
    ensures { OnOk result (string_bytes lines.new ≡ string_bytes lines.old
        ++ counts_lines (procedure_names (tree_of program.now))
        (counted_each summaries.now.procedures mailboxes.now)) }
{
    for number in 0..summaries.len() as u8 {
        let name = name_of(program, number);
        let entries = summaries.entries(number).len();
        let pairs = summaries.pairs(number).len();
        let taken = mailboxes[number as usize].taken();
        push_line(lines, name, entries, pairs, taken)?;
    }
    Ok(())
}
