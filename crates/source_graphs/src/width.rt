//! Which procedure has more places than a valuation has bits, found without memory.

ghost use Rattle.std.specs.Prelude.{◌≡◌};
ghost use Rattle.checked.specs.Programs.{checked_tree};
ghost use Rattle.resolved.specs.Narrow.{width};
ghost use Rattle.source_graphs.specs.Wide.{IsFirstWide};
ghost use Rattle.trees.specs.Trees.{proc_of, tree_of};

use checked::Checked;
use resolved::MOST_PLACES;
use std::alloc::Allocator;
use trees::{Proc, Program, give_value};

/// A procedure that has too many places.
#[derive(Clone, Copy)]
pub struct WideProcedure {
    /// The offset of its name in the text.
    pub at: u32,
    /// How many places it has: more than 128. No sum of lengths passes 2^128.
    pub places: u128,
}

/// How many places a procedure of a program has: the globals, its formals and locals, and its result, if it gives one.
fn places<N: Allocator>(program: &Program<N>, proc: &Proc<N>) -> u128
    ensures { result ≡ width (tree_of program.now) (proc_of proc.now) }
{
    let own = proc.formals.len() as u128 + proc.locals.len() as u128;
    let result = usize::from(give_value(&proc.body)) as u128;
    program.globals.len() as u128 + own + result
}

/// The first procedure of a program, in the order of the source, that has more than 128 places.
fn first_wide<N: Allocator>(program: &Program<N>) -> Option<WideProcedure>
    ensures { IsFirstWide (tree_of program.now) result }
{
    for proc in &program.procs {
        let places = places(program, proc);
        if places > MOST_PLACES as u128 {
            let at = proc.name.at;
            return Some(WideProcedure { at, places });
        }
    }
    None
}

/// Which procedure of a checked program has more than 128 places: the first, in the order of the source. It takes no
/// memory. `source_graphs` returns `TooWide` if there is one.
pub fn wide_procedure<N: Allocator>(checked: &Checked<N>) -> Option<WideProcedure>
    ensures { IsFirstWide (checked_tree checked.now) result }
{
    first_wide(checked.program())
}
