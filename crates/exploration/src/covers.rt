//! Tuples that have all stacks of another.

ghost use Rattle.std.specs.Prelude.{◌≡◌, ◌<◌, [], IfOk, IsTrue, OnOk};
ghost use Rattle.stack_sets.specs.Nodes.{nodes_in};
ghost use Rattle.stack_sets.specs.Within.{AreWithin, found_in};
ghost use Rattle.exploration.specs.Met.{IsCovered};

use crate::tuple::{Tuple, Tuples, is_met};
use groups::Groups;
use stack_sets::{Inclusions, Pair, StackSets};
use std::alloc::{AllocError, Allocator};

/// How many tuples are looked at for one that may be covered, at most: those that were met last.
const MOST_LOOKED_AT: usize = 16;

/// What is known of tuples that may have all stacks of another.
#[derive(Drop)]
pub(crate) struct Covers<A: Allocator> {
    /// Which nodes have all stacks of others.
    pub(crate) known: Inclusions<A>,
    /// By all else that a tuple has, the nodes that tuples have of the thread that had its turn last.
    // Nothing depends on these but where is looked: whether there is such a tuple is asked of the tuples.
    alike: Groups<Tuple, u32, A>,
}

/// Whether the tuple that has this node in the place `at` is among the tuples, and has all stacks of this one.
fn has_cover<A: Allocator + Copy>(
    alloc: A,
    sets: &StackSets<A>,
    known: &mut Inclusions<A>,
    tuples: &Tuples<A>,
    tuple: &Tuple,
    at: usize,
    node: u32,
) -> Result<bool, AllocError>
    requires at { at < 8 }
    requires known { AreWithin (nodes_in sets.now) (found_in known.old) }
    ensures known { OnOk result (AreWithin (nodes_in sets.now) (found_in known.new)) }
    ensures covered { IfOk result
        (λ yes. IsTrue yes → IsCovered (nodes_in sets.now) tuples.now.keys tuple.now) }
{
    let other = tuple.with(at, node);
    let pair = Pair {
        under: tuple.nodes[at] as usize,
        over: node as usize,
    };
    Ok(known.is_kept_within(alloc, sets, pair)? && is_met(tuples, &other))
}

/// Whether some tuple that has one of these nodes in the place `at`, of the last ones, covers a tuple.
fn is_covered_by<A: Allocator + Copy>(
    alloc: A,
    sets: &StackSets<A>,
    known: &mut Inclusions<A>,
    tuples: &Tuples<A>,
    tuple: &Tuple,
    at: usize,
    nodes: &[u32],
) -> Result<bool, AllocError>
    requires at { at < 8 }
    requires known { AreWithin (nodes_in sets.now) (found_in known.old) }
    ensures known { OnOk result (AreWithin (nodes_in sets.now) (found_in known.new)) }
    ensures covered { IfOk result
        (λ yes. IsTrue yes → IsCovered (nodes_in sets.now) tuples.now.keys tuple.now) }
{
    let least = nodes.len().saturating_sub(MOST_LOOKED_AT);
    for index in (least..nodes.len()).rev() {
        if has_cover(alloc, sets, known, tuples, tuple, at, nodes[index])? {
            return Ok(true);
        }
    }
    Ok(false)
}

impl<A: Allocator + Copy> Covers<A> {
    /// Nothing is known.
    pub(crate) fn new(alloc: A) -> Self
        ensures { found_in result.known ≡ [] }
    {
        Covers {
            known: Inclusions::new(alloc),
            alike: Groups::new(alloc),
        }
    }

    /// Whether a tuple is among the tuples or is seen to be covered by one: that before the turn of the same thread,
    /// with the same globals, differs from it in the place `at` alone, and there has a node of all its stacks.
    pub(crate) fn is_covered(
        &mut self,
        alloc: A,
        sets: &StackSets<A>,
        tuples: &Tuples<A>,
        tuple: &Tuple,
        at: usize,
    ) -> Result<bool, AllocError>
        requires at { at < 8 }
        requires known { AreWithin (nodes_in sets.now) (found_in self.old.known) }
        ensures known { OnOk result (AreWithin (nodes_in sets.now) (found_in self.new.known)) }
        ensures covered { IfOk result
            (λ yes. IsTrue yes → IsCovered (nodes_in sets.now) tuples.now.keys tuple.now) }
    {
        if is_met(tuples, tuple) {
            return Ok(true);
        }
        let nodes = self.alike.of(tuple.with(at, 0));
        is_covered_by(alloc, sets, &mut self.known, tuples, tuple, at, nodes)
    }

    /// Notes a tuple that was met after the turn of the thread in the place `at`.
    pub(crate) fn note(&mut self, tuple: &Tuple, at: usize) -> Result<(), AllocError>
        requires at { at < 8 }
        ensures known { self.new.known ≡ self.old.known }
    {
        self.alike.add(tuple.with(at, 0), tuple.nodes[at])
    }
}
