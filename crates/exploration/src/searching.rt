//! The search.

ghost use Rattle.std.specs.Prelude.{◌≡◌, ◌<◌, ◌≤◌, ◌+◌, ◌^◌, IfErr, IfOk, IsTrue, OnOk, Ok, false};
ghost use Rattle.std.specs.Prelude.{length, suc};
ghost use Rattle.exploration.specs.Moments.{Follows};
ghost use Rattle.exploration.specs.Searched.{IsAt, IsExpansion, IsNew, IsReached, IsSearch};
ghost use Rattle.exploration.specs.Searched.{IsTuple, KnowsWithin, threads_by};
ghost use Rattle.exploration.specs.Turns.{AreTurns, IsTurnFrom};
ghost use Rattle.turns.specs.Between.{FailsBelow};
ghost use Rattle.exploration.specs.Ends.{HasBegun, HasRoom, IsEnd, IsStopped};
ghost use Rattle.exploration.specs.Met.{Adds};
ghost use Rattle.stack_sets.specs.Turns.{AreWhole, machine_by};
ghost use Rattle.stack_sets.specs.Nodes.{IsPrefix, nodes_in};
ghost use Rattle.exploration.specs.Turns.{turns_in};

use crate::covers::Covers;
use crate::kept_turns::{KeptTurns, Start};
use crate::limits::Rounds;
use crate::moment::Moment;
use crate::tuple::{Tuple, Tuples, meet_all};
use source_graphs::SourceGraphs;
use stack_sets::{NoTurn, StackSets, TakesTurns, Turn};
use std::alloc::Allocator;

/// What the search has met. Tuples are met in the order of rounds, and in a round in that of the threads: those that
/// are not expanded yet are all before the same turn.
#[derive(Drop)]
pub(crate) struct Search<A: Allocator> {
    pub(crate) sets: StackSets<A>,
    pub(crate) turns: KeptTurns<A>,
    pub(crate) tuples: Tuples<A>,
    /// Where is looked for tuples that cover others.
    pub(crate) covers: Covers<A>,
    /// How many tuples, the first ones, have had their turn.
    pub(crate) expanded: usize,
    /// How much may still be found and met.
    pub(crate) left: u64,
}

/// How a search ends.
#[derive(Clone, Copy)]
pub(crate) enum End {
    /// A turn of this round fails, counted from 0, and none before.
    Fails(u64),
    /// No turn fails of this many rounds, which are all that were asked for.
    Holds(u64),
    /// No turn of any round fails; those of this many rounds were made.
    Settles(u64),
}

/// Why a search has no end: memory, or the limit in this round.
pub(crate) enum Stopped {
    Memory,
    Limit(u64),
}

/// The number of the turn from a start, which `T` makes if it was not made before; `None` if it fails.
fn turn_from<T: TakesTurns<A>, G: Allocator, A: Allocator + Copy>(
    alloc: A,
    source: &SourceGraphs<G>,
    sets: &mut StackSets<A>,
    turns: &mut KeptTurns<A>,
    left: &mut u64,
    start: Start,
) -> Result<Option<usize>, NoTurn>
    requires whole { AreWhole (nodes_in sets.old) }
    requires within { start.node < length (nodes_in sets.old) }
    requires kept { AreTurns (machine_by source.now.graphs source.now.asserts) (nodes_in sets.old)
        (turns_in turns.old) }
    ensures keeps { IsPrefix (nodes_in sets.old) (nodes_in sets.new) }
    ensures whole { OnOk result (AreWhole (nodes_in sets.new)) }
    ensures kept { OnOk result
        (AreTurns (machine_by source.now.graphs source.now.asserts) (nodes_in sets.new)
        (turns_in turns.new)) }
    ensures turn { IfOk result
        (IsTurnFrom (machine_by source.now.graphs source.now.asserts) (nodes_in sets.old)
        (turns_in turns.new) start) }
    ensures work { left.new ≤ left.old }
{
    if let Some(number) = turns.number(start) {
        return Ok(Some(number));
    }
    match T::take_turn(
        alloc,
        &source.graphs,
        &source.asserts,
        sets,
        left,
        start.globals,
        start.node,
    )? {
        Turn::Fails => Ok(None),
        Turn::Ends(endings) => Ok(Some(turns.keep(start, endings)?)),
    }
}

impl<A: Allocator + Copy> Search<A> {
    /// Makes the turn of a tuple, and meets those after it. Returns whether the turn does not fail.
    fn expand<T: TakesTurns<A>, G: Allocator>(
        &mut self,
        alloc: A,
        source: &SourceGraphs<G>,
        procedures: &[u8],
        tuple: &Tuple,
        moment: Moment,
        next: Moment,
    ) -> Result<bool, NoTurn>
        requires few { length procedures.now ≤ 8 }
        requires search { IsSearch (threads_by source.now procedures.now) self.old }
        requires known { KnowsWithin self.old }
        requires tuple { IsTuple (threads_by source.now procedures.now)
            (nodes_in self.old.sets) tuple.now }
        requires thread { tuple.now.thread ≡ moment.thread }
        requires reached { IsReached (threads_by source.now procedures.now)
            (nodes_in self.old.sets) moment.round tuple.now }
        requires follows { Follows (length procedures.now) moment next }
        requires next { next.thread < length procedures.now }
        ensures keeps { IsPrefix (nodes_in self.old.sets) (nodes_in self.new.sets) }
        ensures search { IfOk result
            (λ holds. IsTrue holds → IsSearch (threads_by source.now procedures.now) self.new) }
        ensures known { IfOk result (λ holds. IsTrue holds → KnowsWithin self.new) }
        ensures turn { IfOk result
            (IsExpansion (threads_by source.now procedures.now)
            (nodes_in self.new.sets) self.new.tuples.keys tuple.now moment.round) }
        ensures adds { OnOk result
            (Adds
            (IsNew (threads_by source.now procedures.now) (nodes_in self.new.sets) next)
            self.old.tuples.keys self.new.tuples.keys) }
        ensures same { self.new.expanded ≡ self.old.expanded }
        ensures work { self.new.left + length self.new.tuples.keys
            ≤ self.old.left + length self.old.tuples.keys }
    {
        let start = Start {
            globals: tuple.globals,
            node: tuple.node(),
        };
        let Some(number) = turn_from::<T, G, A>(
            alloc,
            source,
            &mut self.sets,
            &mut self.turns,
            &mut self.left,
            start,
        )?
        else {
            return Ok(false);
        };
        let endings = self.turns.turns[number].endings.as_slice();
        meet_all(
            alloc,
            &self.sets,
            &mut self.covers,
            &mut self.tuples,
            &mut self.left,
            tuple,
            next,
            endings,
        )?;
        Ok(true)
    }

    /// Makes the turns of all tuples that have not had theirs. Returns whether none of these turns fails.
    fn expand_all<T: TakesTurns<A>, G: Allocator>(
        &mut self,
        alloc: A,
        source: &SourceGraphs<G>,
        procedures: &[u8],
        moment: Moment,
        next: Moment,
    ) -> Result<bool, NoTurn>
        requires few { length procedures.now ≤ 8 }
        requires come { IsAt (threads_by source.now procedures.now) self.old moment }
        requires known { KnowsWithin self.old }
        requires follows { Follows (length procedures.now) moment next }
        ensures come { IfOk result
            (λ holds. IsTrue holds → IsAt (threads_by source.now procedures.now) self.new next) }
        ensures known { IfOk result (λ holds. IsTrue holds → KnowsWithin self.new) }
        ensures fails { result ≡ Ok false
            → FailsBelow (threads_by source.now procedures.now) (suc moment.round) }
        ensures all { IfOk result
            (λ holds. IsTrue holds → self.new.expanded ≡ length self.old.tuples.keys) }
        ensures work { self.new.left + length self.new.tuples.keys
            ≤ self.old.left + length self.old.tuples.keys }
    {
        let end = self.tuples.len();
        while self.expanded < end {
            let tuple = self.tuples.as_slice()[self.expanded];
            if !self.expand::<T, G>(alloc, source, procedures, &tuple, moment, next)? {
                return Ok(false);
            }
            self.expanded += 1;
        }
        Ok(true)
    }

    /// Explores these rounds from the first turn on.
    pub(crate) fn run<T: TakesTurns<A>, G: Allocator>(
        &mut self,
        alloc: A,
        source: &SourceGraphs<G>,
        procedures: &[u8],
        rounds: Rounds,
    ) -> Result<End, Stopped>
        requires few { length procedures.now ≤ 8 }
        requires come { HasBegun (threads_by source.now procedures.now) self.old }
        requires known { KnowsWithin self.old }
        requires room { self.old.left + length self.old.tuples.keys < 2 ^ 32 }
        ensures end { IfOk result (IsEnd (threads_by source.now procedures.now) rounds) }
        ensures room { IfOk result HasRoom }
        ensures stopped { IfErr result (IsStopped (threads_by source.now procedures.now)) }
        ensures work { self.new.left + length self.new.tuples.keys
            ≤ self.old.left + length self.old.tuples.keys }
    {
        let mut moment = Moment {
            round: 0,
            thread: 0,
        };
        loop {
            if self.expanded == self.tuples.len() {
                return Ok(End::Settles(moment.round + u64::from(moment.thread > 0)));
            }
            if procedures.len() == 1 && moment.round > 0 {
                // A thread alone has no more in its next turn than in its first.
                return Ok(End::Settles(moment.round));
            }
            if let Some(most) = rounds.reached(moment.round) {
                return Ok(End::Holds(u64::from(most)));
            }
            let next = moment.next(procedures.len());
            match self.expand_all::<T, G>(alloc, source, procedures, moment, next) {
                Ok(true) => moment = next,
                Ok(false) => return Ok(End::Fails(moment.round)),
                Err(NoTurn::Memory) => return Err(Stopped::Memory),
                Err(NoTurn::Limit) => return Err(Stopped::Limit(moment.round)),
            }
        }
    }
}
