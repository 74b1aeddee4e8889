//! The check of scopes as a whole.

ghost use Rattle.std.specs.Prelude.{◌≡◌, ◌⊎◌, IfOk, IfErr};
ghost use Rattle.trees.specs.Trees.{tree_of};
ghost use Rattle.checked.specs.Checked.{IsChecked, IsFirstFault, FaultStands};
ghost use Rattle.checked.specs.declared.fault.ScopeFault.TheVariants.{Memory};
ghost use Rattle.scopes.specs.First.{FindsFirst};
ghost use Rattle.checked.specs.Programs.{checked_program};

use crate::counts::first_wrong_count;
use crate::labels::first_bad_label;
use crate::limits::first_too_many;
use crate::reserved::first_reserved;
use crate::sooner::sooner;
use crate::threads::first_bad_thread;
use crate::twice::first_twice;
use crate::undeclared::first_undeclared;
use checked::{Checked, ScopeFault};
use std::alloc::{AllocError, Allocator};
use trees::Program;

/// Which of the faults that stand in a program is returned.
fn first_fault<A: Allocator + Copy>(
    alloc: &A,
    program: &Program<A>,
) -> Result<Option<ScopeFault>, AllocError>
    ensures { IfOk result (λ r. FindsFirst (FaultStands (tree_of program.now)) r) }
{
    let undeclared = first_undeclared(alloc, program)?.map(ScopeFault::Undeclared);
    let twice = first_twice(alloc, program)?.map(ScopeFault::DeclaredTwice);
    let counts = first_wrong_count(alloc, program)?.map(ScopeFault::WrongCount);
    let threads = first_bad_thread(program).map(ScopeFault::BadThread);
    let labels = first_bad_label(alloc, program)?.map(ScopeFault::BadLabel);
    let reserved = first_reserved(alloc, program)?.map(ScopeFault::Reserved);
    let many = first_too_many(alloc, program)?.map(ScopeFault::TooMany);
    let through_twice = sooner(undeclared, twice);
    let through_counts = sooner(through_twice, counts);
    let through_threads = sooner(through_counts, threads);
    let through_labels = sooner(through_threads, labels);
    let through_reserved = sooner(through_labels, reserved);
    Ok(sooner(through_reserved, many))
}

/// Checks the scopes of a program: the program is returned, checked, if none of the faults stands in it. Of several
/// faults that stand, the one with the least offset is returned, and if offsets are equal the one with the least
/// number; `Memory` is returned if an allocation was refused. What the check needs besides the program is allocated
/// by `alloc`.
pub fn check<A: Allocator + Copy>(alloc: A, program: Program<A>) -> Result<Checked<A>, ScopeFault>
    // What is checked is the program that came in, and no fault stands in it.
    ensures checked { IfOk result
        (λ c. (checked_program c ≡ program) × IsChecked (tree_of program)) }
    // A fault that is returned stands at its place, and it is the first that does, unless memory ran out.
    ensures fault { IfErr result (λ f. (f ≡ Memory) ⊎ IsFirstFault (tree_of program) f) }
{
    match first_fault(&alloc, &program)? {
        None => Ok(Checked::new(program)),
        Some(fault) => Err(fault),
    }
}
