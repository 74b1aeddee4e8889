//! Which nodes have all stacks of others.

ghost use Rattle.std.specs.Prelude.{◌≡◌, ◌<◌, ◌++◌, ◌⊎◌, [], IfOk, IfSome, IsTrue, OnOk, Some};
ghost use Rattle.std.specs.Prelude.{length, slice_get};
ghost use Rattle.language.specs.Lists.{Member};
ghost use Rattle.stack_sets.specs.Nodes.{head_over, nodes_in};
ghost use Rattle.stack_sets.specs.Within.{AreWithin, EachHolds, HasAll, HasMatch, Holds, IsUnder};
ghost use Rattle.stack_sets.specs.Within.{IsWithin, found_in};

use crate::node::{Head, Node};
use crate::stack_sets::StackSets;
use indexmap::IndexSet;
use std::alloc::{AllocError, Allocator};
use std::hash::{BuildHasherDefault, FoldHasher};

/// Two nodes by number, of which the second may have all stacks of the first.
#[derive(Clone, Copy, PartialEq, Eq, Hash)]
pub struct Pair {
    pub under: usize,
    pub over: usize,
}

/// Pairs, each once.
type Pairs<A> = IndexSet<Pair, BuildHasherDefault<FoldHasher>, A>;

/// How many pairs are looked at for one answer, and how often, at most. A search that would need more finds nothing.
const MOST_PAIRS: usize = 4096;

const MOST_PASSES: usize = 16;

/// What is known of pairs.
#[derive(Drop)]
pub struct Inclusions<A: Allocator> {
    /// The second node has all stacks of the first.
    found: Pairs<A>,
    /// Nothing was found that shows it.
    // Nothing depends on these but that no search is made twice.
    missed: Pairs<A>,
}

/// The node of a number, among those that are kept and others behind them.
fn node_at<'a, A: Allocator + Copy>(
    sets: &'a StackSets<A>,
    more: &'a [Node<A>],
    number: usize,
) -> Option<&'a Node<A>>
    ensures { IfSome result
        (λ node. slice_get (nodes_in sets.now ++ more.now) number ≡ Some node.now) }
{
    if number < sets.len() {
        Some(sets.node(number))
    } else {
        more.get(number - sets.len())
    }
}

/// Whether a pair is one of these.
fn has<A: Allocator>(pairs: &Pairs<A>, pair: Pair) -> bool
    ensures { IsTrue result → Member pair pairs.now.keys }
{
    pairs.contains(&pair)
}

/// Whether two nodes are one, or a pair of either kind.
fn is_under<A: Allocator>(pairs: &Pairs<A>, known: &Pairs<A>, under: usize, over: usize) -> bool
    ensures { IsTrue result → IsUnder pairs.now.keys known.now.keys under over }
{
    let pair = Pair { under, over };
    under == over || has(known, pair) || has(pairs, pair)
}

/// Whether some head has the same frame, over a node that is paired with what lies below this one.
fn has_match<A: Allocator>(head: Head, heads: &[Head], pairs: &Pairs<A>, known: &Pairs<A>) -> bool
    ensures { IsTrue result → HasMatch pairs.now.keys known.now.keys head heads.now }
{
    for other in heads {
        if other.frame == head.frame && is_under(pairs, known, head.below, other.below) {
            return true;
        }
    }
    false
}

/// Whether the second node has what the first has, over nodes that are paired.
fn has_all<A: Allocator>(one: &Node<A>, other: &Node<A>, pairs: &Pairs<A>, known: &Pairs<A>) -> bool
    ensures { IsTrue result → HasAll pairs.now.keys known.now.keys one.now other.now }
{
    if one.bare && !other.bare {
        return false;
    }
    for head in one.heads.as_slice() {
        if !has_match(*head, other.heads.as_slice(), pairs, known) {
            return false;
        }
    }
    true
}

/// Whether the second node of a pair has what the first has.
fn holds<A: Allocator + Copy>(
    sets: &StackSets<A>,
    more: &[Node<A>],
    pairs: &Pairs<A>,
    known: &Pairs<A>,
    pair: Pair,
) -> bool
    ensures { IsTrue result
        → Holds (nodes_in sets.now ++ more.now) pairs.now.keys known.now.keys pair }
{
    match (
        node_at(sets, more, pair.under),
        node_at(sets, more, pair.over),
    ) {
        (Some(one), Some(other)) => has_all(one, other, pairs, known),
        _ => false,
    }
}

/// Whether this is so for each pair: the pairs are a simulation.
fn is_simulation<A: Allocator + Copy>(
    sets: &StackSets<A>,
    more: &[Node<A>],
    pairs: &Pairs<A>,
    known: &Pairs<A>,
) -> bool
    ensures { IsTrue result
        → EachHolds (nodes_in sets.now ++ more.now) pairs.now.keys known.now.keys pairs.now.keys }
{
    for pair in pairs.as_slice() {
        if !holds(sets, more, pairs, known, *pair) {
            return false;
        }
    }
    true
}

/// Leaves out the pairs of which the second node lacks something that the first has.
fn narrow<A: Allocator + Copy>(
    alloc: A,
    sets: &StackSets<A>,
    more: &[Node<A>],
    pairs: &mut Pairs<A>,
    known: &Pairs<A>,
) -> Result<(), AllocError> {
    let mut some = IndexSet::new(alloc);
    for pair in pairs.as_slice() {
        if holds(sets, more, pairs, known, *pair) {
            some.insert(*pair)?;
        }
    }
    *pairs = some;
    Ok(())
}

/// Adds the pairs of what lies below heads with one frame.
fn add_below<A: Allocator>(
    pairs: &mut Pairs<A>,
    missed: &Pairs<A>,
    head: Head,
    heads: &[Head],
) -> Result<(), AllocError> {
    for other in heads {
        if pairs.len() >= MOST_PAIRS {
            break;
        }
        let pair = Pair {
            under: head.below,
            over: other.below,
        };
        if other.frame == head.frame && pair.under != pair.over && !missed.contains(&pair) {
            pairs.insert(pair)?;
        }
    }
    Ok(())
}

impl<A: Allocator + Copy> Inclusions<A> {
    /// Nothing is known.
    pub fn new(alloc: A) -> Self
        ensures { found_in result ≡ [] }
    {
        Inclusions {
            found: IndexSet::new(alloc),
            missed: IndexSet::new(alloc),
        }
    }

    /// A pair, and all to which it leads.
    fn reached(
        &self,
        alloc: A,
        sets: &StackSets<A>,
        more: &[Node<A>],
        pair: Pair,
    ) -> Result<Pairs<A>, AllocError> {
        let mut pairs = IndexSet::new(alloc);
        pairs.insert(pair)?;
        for index in 0..MOST_PAIRS {
            let Some(pair) = pairs.as_slice().get(index) else {
                break;
            };
            let pair = *pair;
            let one = node_at(sets, more, pair.under);
            let other = node_at(sets, more, pair.over);
            if let (Some(one), Some(other)) = (one, other) {
                for head in one.heads.as_slice() {
                    add_below(&mut pairs, &self.missed, *head, other.heads.as_slice())?;
                }
            }
        }
        Ok(pairs)
    }

    /// Notes a pair.
    fn note(&mut self, pair: Pair) -> Result<(), AllocError>
        ensures { OnOk result
            ((p : Pair) → Member p (found_in self.new)
            → Member p (found_in self.old) ⊎ (p ≡ pair)) }
    {
        self.found.insert(pair)?;
        Ok(())
    }

    /// Notes pairs that are a simulation.
    fn note_all(&mut self, pairs: &Pairs<A>) -> Result<(), AllocError>
        ensures { OnOk result
            ((p : Pair) → Member p (found_in self.new)
            → Member p (found_in self.old) ⊎ Member p pairs.now.keys) }
    {
        for pair in pairs.as_slice() {
            self.note(*pair)?;
        }
        Ok(())
    }

    /// Notes that nothing was found that shows a pair.
    fn give_up(&mut self, pair: Pair) -> Result<(), AllocError>
        ensures { self.new.found ≡ self.old.found }
    {
        self.missed.insert(pair)?;
        Ok(())
    }

    /// Notes pairs if they are a simulation. Returns whether they are.
    fn is_noted(
        &mut self,
        sets: &StackSets<A>,
        more: &[Node<A>],
        pairs: &Pairs<A>,
    ) -> Result<bool, AllocError>
        requires known { AreWithin (nodes_in sets.now ++ more.now) (found_in self.old) }
        ensures known { OnOk result
            (AreWithin (nodes_in sets.now ++ more.now) (found_in self.new)) }
        ensures within { IfOk result (λ yes. IsTrue yes
            → AreWithin (nodes_in sets.now ++ more.now) pairs.now.keys) }
    {
        if !is_simulation(sets, more, pairs, &self.found) {
            return Ok(false);
        }
        self.note_all(pairs)?;
        Ok(true)
    }

    /// Looks for a simulation that has a pair, among these, and notes it.
    fn search(
        &mut self,
        alloc: A,
        sets: &StackSets<A>,
        more: &[Node<A>],
        pair: Pair,
        pairs: &mut Pairs<A>,
    ) -> Result<bool, AllocError>
        requires known { AreWithin (nodes_in sets.now ++ more.now) (found_in self.old) }
        ensures known { OnOk result
            (AreWithin (nodes_in sets.now ++ more.now) (found_in self.new)) }
        ensures within { IfOk result (λ yes. IsTrue yes
            → IsWithin (nodes_in sets.now ++ more.now) pair.under pair.over) }
    {
        for _ in 0..MOST_PASSES {
            if !has(pairs, pair) {
                return Ok(false);
            }
            if self.is_noted(sets, more, pairs)? {
                return Ok(true);
            }
            narrow(alloc, sets, more, pairs, &self.found)?;
        }
        Ok(false)
    }

    /// Whether each stack of the first node of a pair is one of the second, as far as a simulation shows it; nodes have
    /// their numbers among those that are kept and others behind them.
    pub fn is_within(
        &mut self,
        alloc: A,
        sets: &StackSets<A>,
        more: &[Node<A>],
        pair: Pair,
    ) -> Result<bool, AllocError>
        requires known { AreWithin (nodes_in sets.now ++ more.now) (found_in self.old) }
        ensures known { OnOk result
            (AreWithin (nodes_in sets.now ++ more.now) (found_in self.new)) }
        ensures within { IfOk result (λ yes. IsTrue yes
            → IsWithin (nodes_in sets.now ++ more.now) pair.under pair.over) }
    {
        if pair.under == pair.over {
            return Ok(true);
        }
        if has(&self.found, pair) {
            return Ok(true);
        }
        if self.missed.contains(&pair) {
            return Ok(false);
        }
        let mut pairs = self.reached(alloc, sets, more, pair)?;
        if self.search(alloc, sets, more, pair, &mut pairs)? {
            return Ok(true);
        }
        self.give_up(pair)?;
        Ok(false)
    }

    /// The same of nodes that are kept.
    pub fn is_kept_within(
        &mut self,
        alloc: A,
        sets: &StackSets<A>,
        pair: Pair,
    ) -> Result<bool, AllocError>
        requires known { AreWithin (nodes_in sets.now) (found_in self.old) }
        ensures known { OnOk result (AreWithin (nodes_in sets.now) (found_in self.new)) }
        ensures within { IfOk result (λ yes. IsTrue yes
            → IsWithin (nodes_in sets.now) pair.under pair.over) }
    {
        let none: Vec<Node<A>, A> = Vec::new(alloc);
        self.is_within(alloc, sets, none.as_slice(), pair)
    }
}
