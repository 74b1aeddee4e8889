//! How many temporaries a procedure needs.

ghost use Rattle.std.specs.Prelude.{◌≡◌, max, option_map};
ghost use Rattle.trees.specs.Trees.{name_of, deed_of, block_of};
ghost use Rattle.trees.specs.Parts.{head_of};
ghost use Rattle.round_rewrite.specs.Table.{receiver_draws, draws_of, temporaries};
ghost use Rattle.round_rewrite.specs.Writing.{deed_needs};

use crate::writer::Writer;
use std::alloc::Allocator;
use trees::{Core, Name, Stmt};

/// The larger of two numbers.
fn larger(a: usize, b: usize) -> usize
    ensures { result ≡ max a b }
{
    if a < b { b } else { a }
}

impl<'a, N: Allocator, A: Allocator + Copy> Writer<'a, N, A> {
    ghost use Rattle.round_rewrite.specs.Writing.{naming_of};

    /// How many temporaries the value of a call takes: one if a global gets it.
    fn receiver_draws(&self, receiver: Option<&Name<N>>) -> usize
        ensures { result ≡ receiver_draws (naming_of self.now).is_shared
            (option_map (λ r. name_of r.now) receiver.entry) }
    {
        match receiver {
            Some(x) => usize::from(self.is_shared(x)),
            None => 0,
        }
    }

    /// How many temporaries one statement needs, without those that it holds.
    fn own_needs(&self, core: &Core<N>) -> usize
        ensures { result ≡ draws_of (naming_of self.now).is_shared (head_of (deed_of core.now)) }
    {
        larger(
            self.receiver_draws(core.receiver()),
            self.draws(core.targets(), core.sides()),
        )
    }

    /// How many temporaries statements need: as many as the one that needs most.
    #[cycle(needs)]
    pub(crate) fn needs(&self, stmts: &[Stmt<N>]) -> usize
        ensures { result ≡ temporaries (naming_of self.now).is_shared (block_of stmts.now) }
    {
        let mut number = 0;
        for stmt in stmts {
            number = larger(number, self.needs_of(&stmt.core));
        }
        number
    }

    /// How many temporaries one statement needs, with those that it holds.
    #[cycle(needs)]
    fn needs_of(&self, core: &Core<N>) -> usize
        ensures { result ≡ deed_needs (naming_of self.now).is_shared (deed_of core.now) }
    {
        let (first, second) = core.inside();
        let held = larger(self.needs(first), self.needs(second));
        larger(self.own_needs(core), held)
    }
}
