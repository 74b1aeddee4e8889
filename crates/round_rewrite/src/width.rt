//! How wide a rewritten program is, before it is made: without memory.

ghost use Rattle.std.specs.Prelude.{◌≡◌, ◌+◌, ◌-◌, ◌*◌, ◌^◌, ◌≤◌, ◌↔◌, IsTrue, length};
ghost use Rattle.checked.specs.Programs.{checked_tree};
ghost use Rattle.trees.specs.Trees.{proc_of, tree_of};
ghost use Rattle.round_rewrite.specs.Limits.{most_rounds};
ghost use Rattle.round_rewrite.specs.Narrow.{IsFirstWideFor, IsNarrowFor};
ghost use Rattle.round_rewrite.specs.Programs.{count_of};
ghost use Rattle.round_rewrite.specs.Writing.{own_width};
ghost use Rattle.round_rewrite.specs.Places.{global_count};

use crate::rounds::Rounds;
use crate::writer::Writer;
use checked::Checked;
use resolved::MOST_PLACES;
use std::alloc::Allocator;
use trees::{Proc, Program, give_value};

/// A procedure that has too many places when it is rewritten.
#[derive(Clone, Copy)]
pub struct Wide {
    /// The offset of its name in the text.
    pub at: u32,
    /// How many places it has: more than 128. No sum of lengths passes 2^128.
    pub places: u128,
}

/// How many globals the rewritten program has.
fn global_count(rounds: Rounds, globals: usize) -> u128
    ensures count { result ≡ global_count globals rounds.last }
    ensures few { result ≤ (2 * most_rounds - 1) * (2 ^ 64 - 1) + 5 }
{
    let last = rounds.last as u128;
    (2 * last + 1) * (globals as u128) + (rounds.bits() as u128 + 2)
}

/// How many places a procedure has when it is rewritten, in a program with this number of globals.
fn places<N: Allocator, A: Allocator + Copy>(
    alloc: &A,
    rounds: Rounds,
    globals: usize,
    proc: &Proc<N>,
) -> u128
    ensures { result ≡ global_count globals rounds.last + own_width (proc_of proc.now) }
{
    let formals = proc.formals.as_slice();
    let locals = proc.locals.as_slice();
    let writer = Writer {
        alloc,
        rounds,
        formals,
        locals,
    };
    let needs = writer.needs(&proc.body) as u128;
    let results = usize::from(give_value(&proc.body)) as u128;
    let declared = formals.len() as u128 + locals.len() as u128;
    global_count(rounds, globals) + (declared + needs + results)
}

/// The first procedure, in the order of the source, that has more than 128 places when it is rewritten.
fn first_wide<N: Allocator, A: Allocator + Copy>(
    alloc: &A,
    rounds: Rounds,
    program: &Program<N>,
) -> Option<Wide>
    ensures { IsFirstWideFor (count_of rounds) (tree_of program.now) result }
{
    let globals = program.globals.as_slice().len();
    for proc in &program.procs {
        let places = places(alloc, rounds, globals, proc);
        if places > MOST_PLACES as u128 {
            let at = proc.name.at;
            return Some(Wide { at, places });
        }
    }
    None
}

/// Whether every procedure of the rewritten program, its first one too, has at most 128 places.
pub(crate) fn is_narrow<N: Allocator, A: Allocator + Copy>(
    alloc: &A,
    rounds: Rounds,
    program: &Program<N>,
) -> bool
    ensures { IsTrue result ↔ IsNarrowFor (count_of rounds) (tree_of program.now) }
{
    let globals = global_count(rounds, program.globals.as_slice().len());
    if globals > MOST_PLACES as u128 {
        return false;
    }
    first_wide(alloc, rounds, program).is_none()
}

/// Which procedure of a checked program is too wide for K rounds: the first, in the order of the source, that has
/// more than 128 places when it is rewritten. It takes no memory. `rewrite` returns `TooWide` if there is one.
pub fn too_wide<N: Allocator, A: Allocator + Copy>(
    alloc: &A,
    checked: &Checked<N>,
    rounds: Rounds,
) -> Option<Wide>
    ensures { IsFirstWideFor (count_of rounds) (checked_tree checked.now) result }
{
    first_wide(alloc, rounds, checked.program())
}
