//! Checked programs.

ghost use Rattle.trees.specs.Trees.{tree_of};
ghost use Rattle.checked.specs.Checked.{IsChecked};

use std::alloc::Allocator;
use trees::Program;

/// A program in which no fault of scopes stands.
#[derive(Drop)]
pub struct Checked<A: Allocator> {
    program: Program<A>,
    pub ghost checked: { IsChecked (tree_of program) },
}

impl<A: Allocator> Checked<A> {
    ghost use Rattle.std.specs.Prelude.{◌≡◌};
    ghost use Rattle.checked.specs.Programs.{checked_program};

    /// The program, as one in which no fault stands. `scopes::check` is the test.
    pub fn new(program: Program<A>) -> Checked<A>
        requires { IsChecked (tree_of program) }
        ensures { checked_program result ≡ program }
    {
        Checked { program }
    }

    /// The program, as it was read.
    pub fn program(&self) -> &Program<A>
        ensures same { result.now ≡ checked_program self.now }
        ensures checked { IsChecked (tree_of result.now) }
    {
        &self.program
    }
}
