//! Turns that were made, by where they began.

ghost use Rattle.std.specs.Prelude.{◌≡◌, ◌++◌, ◌∷◌, [], IfOk, IfSome, OnOk, OnErr, Some, length};
ghost use Rattle.std.specs.Prelude.{slice_get};
ghost use Rattle.exploration.specs.Turns.{AddsTurn, HasStart};

use indexmap::IndexMap;
use language::Word;
use stack_sets::Ending;
use std::alloc::{AllocError, Allocator};
use std::hash::{BuildHasherDefault, FoldHasher};

/// Where a turn begins: the globals, and the node of the thread's stacks.
#[derive(Clone, Copy, PartialEq, Eq, Hash)]
pub(crate) struct Start {
    pub(crate) globals: Word,
    pub(crate) node: usize,
}

/// A turn that was made and does not fail.
#[derive(Drop)]
pub(crate) struct KeptTurn<A: Allocator> {
    pub(crate) start: Start,
    pub(crate) endings: Vec<Ending, A>,
}

/// Turns that were made and do not fail, by number.
#[derive(Drop)]
pub(crate) struct KeptTurns<A: Allocator> {
    pub(crate) turns: Vec<KeptTurn<A>, A>,
    /// The number of the turn from each start.
    numbers: IndexMap<Start, usize, BuildHasherDefault<FoldHasher>, A>,
}

impl<A: Allocator + Copy> KeptTurns<A> {
    ghost use Rattle.exploration.specs.Turns.{turns_in};

    /// No turns.
    pub(crate) fn new(alloc: A) -> Self
        ensures { turns_in result ≡ [] }
    {
        KeptTurns {
            turns: Vec::new(alloc),
            numbers: IndexMap::new(alloc),
        }
    }

    /// The number of the turn from this start, if it was made.
    pub(crate) fn number(&self, start: Start) -> Option<usize>
        ensures { IfSome result (λ n. HasStart start (slice_get (turns_in self.now) n)) }
    {
        let number = *self.numbers.get(&start)?;
        // This holds of each number that is kept, so the test costs less than to say so.
        let kept = self.turns.get(number)?;
        if kept.start == start {
            Some(number)
        } else {
            None
        }
    }

    /// Keeps a turn. Returns its number.
    pub(crate) fn keep(
        &mut self,
        start: Start,
        endings: Vec<Ending, A>,
    ) -> Result<usize, AllocError>
        ensures kept { OnOk result
            (AddsTurn start endings.items (turns_in self.old) (turns_in self.new)) }
        ensures number { IfOk result (λ n. HasStart start (slice_get (turns_in self.new) n)) }
    {
        let number = self.turns.len();
        self.turns.push(KeptTurn { start, endings })?;
        self.numbers.insert(start, number)?;
        Ok(number)
    }
}
