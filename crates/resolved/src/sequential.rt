//! Sequential programs.

ghost use Rattle.std.specs.Prelude.{◌≡◌, ◌≤◌, ◌<◌, length, slice_get};
ghost use Rattle.resolved.specs.There.{IsThere};
ghost use Rattle.resolved.specs.Resolves.{Resolves};
ghost use Rattle.resolved.specs.ResolvesOnce.{Resolves-prop};
ghost use Rattle.trees.specs.Trees.{tree_of};
ghost use Rattle.resolved.specs.Narrow.{width, AllNarrow, AllNarrow-prop};

use std::alloc::Allocator;
use trees::{Program, give_value};

/// A sequential program that a checked program was rewritten to. Its procedure 0 is `main__`; the others follow in the
/// order of the source, from 1. What it carries: its tree resolves, so each variable has its place, each call a
/// procedure with as many formals as it has arguments, each `goto` a rest, and each target a right side; each procedure
/// has at most 128 places; and there are 1 to 32 procedures.
#[derive(Drop)]
pub struct Sequential<A: Allocator> {
    /// The tree of the program.
    pub program: Program<A>,
    pub ghost resolves: { Resolves (tree_of program) } by { Resolves-prop (tree_of program) },
    pub ghost narrow: { AllNarrow (tree_of program) } by { AllNarrow-prop (tree_of program) },
    pub ghost some: { 1 ≤ length program.procs.items },
    pub ghost few: { length program.procs.items ≤ 32 },
}

impl<A: Allocator> Sequential<A> {
    ghost use Rattle.resolved.specs.Programs.{sequential_program, sequential_tree};

    /// The program, with its one thread line, that of `main__`.
    pub fn program(&self) -> &Program<A>
        ensures { result.now ≡ sequential_program self.now }
    {
        &self.program
    }

    /// How many places the valuations of a procedure have: the globals, its formals, locals and temporaries, and its
    /// result, if it gives one.
    pub fn width(&self, procedure: u8) -> u8
        requires { procedure < length (sequential_program self.now).procs.items }
        ensures { IsThere (slice_get (sequential_tree self.now).procedures procedure)
            (λ p. result ≡ width (sequential_tree self.now) p) }
    {
        let proc = &self.program.procs[procedure as usize];
        let own = proc.formals.len() + proc.locals.len();
        let given = give_value(&proc.body) as usize;
        (self.program.globals.len() + own + given) as u8
    }
}
