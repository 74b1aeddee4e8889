//! Tuples: globals, and a set of stacks for each thread.

ghost use Rattle.std.specs.Prelude.{◌≡◌, ◌<◌, ◌≤◌, ◌+◌, ◌++◌, ◌↔◌, IfOk, IfSome, IsTrue, OnErr};
ghost use Rattle.std.specs.Prelude.{OnOk, length, slice_index, if◌then◌else◌};
ghost use Rattle.language.specs.Lists.{Member};
ghost use Rattle.stack_sets.specs.Nodes.{nodes_in};
ghost use Rattle.stack_sets.specs.Within.{AreWithin, found_in};
ghost use Rattle.exploration.specs.Met.{Adds, IsCovered, after_turn, with_node, Ending as AnEnding};

use crate::covers::Covers;
use crate::moment::Moment;
use indexmap::IndexSet;
use language::Word;
use stack_sets::{Ending, NoTurn, StackSets};
use std::alloc::{AllocError, Allocator};
use std::hash::{BuildHasherDefault, FoldHasher};

/// How many threads a program has at most.
pub(crate) const MOST_THREADS: usize = 8;

/// Globals with a set of stacks for each thread, before a thread's turn.
#[derive(Clone, Copy, PartialEq, Eq, Hash)]
pub(crate) struct Tuple {
    pub(crate) globals: Word,
    /// The thread whose turn is next.
    pub(crate) thread: u8,
    /// The number of each thread's node; 0 behind the last thread.
    pub(crate) nodes: [u32; MOST_THREADS],
}

/// Tuples in the order in which they were met, each once.
pub(crate) type Tuples<A> = IndexSet<Tuple, BuildHasherDefault<FoldHasher>, A>;

impl Tuple {
    /// The node of the thread whose turn is next.
    pub(crate) fn node(&self) -> usize
        requires { self.now.thread < 8 }
        ensures { result ≡ slice_index self.now.nodes self.now.thread }
    {
        self.nodes[self.thread as usize] as usize
    }

    /// The tuple that has this node in the place `at`, and else is the same.
    pub(crate) fn with(&self, at: usize, node: u32) -> Tuple
        requires { at < 8 }
        ensures { result ≡ with_node self.now at node }
    {
        let mut nodes = self.nodes;
        nodes[at] = node;
        Tuple {
            globals: self.globals,
            thread: self.thread,
            nodes,
        }
    }

    /// The tuple after a turn with this ending, before the next turn; `None` if the number of the ending's node has
    /// more than 32 bits.
    fn after(&self, ending: Ending, next: Moment) -> Option<Tuple>
        requires { self.now.thread < 8 }
        ensures { IfSome result (λ tuple. tuple ≡ after_turn self.now next.thread ending) }
    {
        let mut nodes = self.nodes;
        nodes[self.thread as usize] = u32::try_from(ending.node).ok()?;
        Some(Tuple {
            globals: ending.globals,
            thread: next.thread,
            nodes,
        })
    }
}

/// Whether a tuple is one of these.
pub(crate) fn is_met<A: Allocator>(tuples: &Tuples<A>, tuple: &Tuple) -> bool
    ensures { IsTrue result → Member tuple.now tuples.now.keys }
{
    tuples.contains(tuple)
}

/// Adds a tuple. Returns whether it is new.
fn insert<A: Allocator>(tuples: &mut Tuples<A>, tuple: Tuple) -> Result<bool, AllocError>
    ensures added { OnOk result (Member tuple tuples.new.keys) }
    ensures adds { Adds (λ t. t ≡ tuple) tuples.old.keys tuples.new.keys }
    ensures len { IfOk result
        (λ new. length tuples.new.keys ≡ length tuples.old.keys + (if new then 1 else 0)) }
    ensures err { OnErr result (tuples.new.keys ≡ tuples.old.keys) }
{
    Ok(tuples.insert(tuple)?)
}

/// Adds a tuple that is met, if it is new. A new one takes one from the work that is left; if none is left, the answer
/// is `Limit`.
pub(crate) fn meet<A: Allocator>(
    tuples: &mut Tuples<A>,
    left: &mut u64,
    tuple: Tuple,
) -> Result<(), NoTurn>
    ensures added { OnOk result (Member tuple tuples.new.keys) }
    ensures adds { Adds (λ t. t ≡ tuple) tuples.old.keys tuples.new.keys }
    ensures work { left.new + length tuples.new.keys ≤ left.old + length tuples.old.keys }
{
    if *left == 0 {
        return if tuples.contains(&tuple) {
            Ok(())
        } else {
            Err(NoTurn::Limit)
        };
    }
    if insert(tuples, tuple)? {
        *left -= 1;
    }
    Ok(())
}

/// Adds a tuple that is met after the turn of the thread in the place `at`, if none is seen to cover it.
fn meet_after<A: Allocator + Copy>(
    alloc: A,
    sets: &StackSets<A>,
    covers: &mut Covers<A>,
    tuples: &mut Tuples<A>,
    left: &mut u64,
    tuple: Tuple,
    at: usize,
) -> Result<(), NoTurn>
    requires at { at < 8 }
    requires known { AreWithin (nodes_in sets.now) (found_in covers.old.known) }
    ensures known { OnOk result (AreWithin (nodes_in sets.now) (found_in covers.new.known)) }
    ensures covered { OnOk result (IsCovered (nodes_in sets.now) tuples.new.keys tuple) }
    ensures adds { Adds (λ t. t ≡ tuple) tuples.old.keys tuples.new.keys }
    ensures work { left.new + length tuples.new.keys ≤ left.old + length tuples.old.keys }
{
    if covers.is_covered(alloc, sets, tuples, &tuple, at)? {
        return Ok(());
    }
    meet(tuples, left, tuple)?;
    Ok(covers.note(&tuple, at)?)
}

/// Adds the tuples after a turn with these endings, before the next turn, but those that are seen to be covered.
pub(crate) fn meet_all<A: Allocator + Copy>(
    alloc: A,
    sets: &StackSets<A>,
    covers: &mut Covers<A>,
    tuples: &mut Tuples<A>,
    left: &mut u64,
    tuple: &Tuple,
    next: Moment,
    endings: &[Ending],
) -> Result<(), NoTurn>
    requires thread { tuple.now.thread < 8 }
    requires known { AreWithin (nodes_in sets.now) (found_in covers.old.known) }
    ensures known { OnOk result (AreWithin (nodes_in sets.now) (found_in covers.new.known)) }
    ensures covered { OnOk result
        ((e : AnEnding) → Member e endings.now
        → IsCovered (nodes_in sets.now) tuples.new.keys (after_turn tuple.now next.thread e)) }
    ensures adds { Adds
        (λ t. (e : AnEnding) × Member e endings.now × (t ≡ after_turn tuple.now next.thread e))
        tuples.old.keys tuples.new.keys }
    ensures work { left.new + length tuples.new.keys ≤ left.old + length tuples.old.keys }
{
    let at = tuple.thread as usize;
    for ending in endings {
        let met = tuple.after(*ending, next).ok_or(NoTurn::Memory)?;
        meet_after(alloc, sets, covers, tuples, left, met, at)?;
    }
    Ok(())
}
