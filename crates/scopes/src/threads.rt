//! Thread lines that name no procedure, or one with formals.

ghost use Rattle.std.specs.Prelude.{◌≡◌};
ghost use Rattle.trees.specs.Trees.{proc_of, procs_of, thread_of, tree_of};
ghost use Rattle.scopes.specs.Find.{Finds};
ghost use Rattle.checked.specs.Faults.{no_formals, StartsNowhere, BadThread};

use crate::search::earliest;
use crate::undeclared::find;
use std::alloc::Allocator;
use trees::{Proc, Program, Thread};

/// Whether a thread can start in this procedure: it has no formals.
pub(crate) fn takes_nothing<A: Allocator>(proc: &Proc<A>) -> bool
    ensures { result ≡ no_formals (proc_of proc.now) }
{
    proc.formals.as_slice().is_empty()
}

/// The offset of the name in a thread line, if no thread can start in what it names.
pub(crate) fn cannot_start<A: Allocator>(procs: &[Proc<A>], line: &Thread<A>) -> Option<u32>
    ensures { Finds (StartsNowhere (procs_of procs.now) (thread_of line.now)) result }
{
    match find(procs, &line.name) {
        None => Some(line.name.at),
        Some(proc) => {
            if takes_nothing(proc) {
                None
            } else {
                Some(line.name.at)
            }
        }
    }
}

/// The least offset of a name in a thread line that names no procedure, or one with formals; nothing if each
/// line names one in which a thread can start.
pub(crate) fn first_bad_thread<A: Allocator>(program: &Program<A>) -> Option<u32>
    ensures { Finds (λ n. BadThread (tree_of program.now) n) result }
{
    let procs = program.procs.as_slice();
    earliest(&program.threads, |line| cannot_start(procs, line))
}
