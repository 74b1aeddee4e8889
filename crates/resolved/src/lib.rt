//! Trees whose names all resolve, and the sequential programs that they are: what the rewriting makes and what
//! flow graphs are drawn from.
#![tactic(auto)]

mod limits;
mod sequential;

ghost use Rattle.std.specs.Prelude.{◌≡◌, ℕ, ◌+◌, ◌≤◌, Some, slice_get};
ghost use Rattle.language.specs.Tree.{Tree};
ghost use Rattle.language.specs.Step.{Routine, frame_size};
ghost use Rattle.language.specs.Messages.{ArgumentsFit};
ghost use Rattle.language.specs.Sequential.{sequential_of};
ghost use Rattle.resolved.specs.Complete.{IsComplete};
ghost use Rattle.resolved.specs.Resolves.{Resolves};
ghost use Rattle.resolved.specs.Narrow.{AllNarrow};
ghost use Rattle.resolved.specs.Limits.{most_places};

pub use limits::MOST_PLACES;
pub use sequential::Sequential;

/// What a tree that resolves means as a sequential program is complete: each variable has its place, each target its
/// right side, each call a procedure with a place for each argument, each `goto` a rest that begins at its label, and
/// only a procedure that gives a value returns one.
pub fn resolving_trees_are_complete()
    ensures { (t : Tree) → Resolves t → IsComplete (sequential_of t) }
{}

/// In a tree that resolves, as a sequential program, each call has a place for each argument.
pub fn calls_of_resolving_trees_fit()
    ensures { (t : Tree) → Resolves t → ArgumentsFit (sequential_of t) }
{}

/// In a tree whose procedures have at most 128 places each, as a sequential program, each valuation has at most 128
/// values.
pub fn narrow_trees_have_narrow_valuations()
    ensures { (t : Tree) → AllNarrow t → (q : ℕ) (routine : Routine)
        → slice_get (sequential_of t).routines q ≡ Some routine
        → (sequential_of t).globals + frame_size routine ≤ most_places }
{}
