//! The results of workers if a thread is refused, or if they have few calls.

ghost use Rattle.std.specs.Prelude.{◌≤◌, ◌^◌};

use crate::workers::held::Held;
use crate::workers::program::{Parts, Trial};
use crate::workers::refusing::{Moment, Refusing};
use crate::workers::report::answer_of;
use flow_graph::Graphs;
use gather::{Answer, CrewBoard, CrewSet, check_rounds_tried};
use path_sets::{DiagramEdges, OrderedEdges};
use std::alloc::{AllocError, Global};
use std::sync::Wait;
use std::thread::Threads;
use summaries::{Due, EdgeLimit, NoVerdict};
use switchboard::{LockPerBox, OneLock};
use ticket_lock::MOST_TICKETS;

type LockEach = LockPerBox<Due, Graphs<Global>, Global>;

type LockAll = OneLock<Due, Graphs<Global>, Global>;

/// The parts of a number from 0 to 3.
pub fn parts_at(number: u8) -> Parts {
    Parts {
        one_lock: number / 2 == 1,
        diagrams: number % 2 == 1,
    }
}

/// Writes an answer, or why there is none.
pub fn write_came(out: &mut String, came: Result<Answer, NoVerdict>) -> Result<(), AllocError> {
    match came {
        Ok(answer) => write!(out, "{answer:?}"),
        Err(NoVerdict::EdgeLimit(_)) => out.push_str("EdgeLimit"),
        Err(why) => write!(out, "{why:?}"),
    }
}

/// Writes the result of one more run, if it differs from those before.
pub fn put(out: &mut String, one: &str) -> Result<(), AllocError> {
    if out.is_empty() {
        out.push_str(one)
    } else if out.as_str() == one {
        Ok(())
    } else {
        write!(out, "\nand then {one}")
    }
}

impl<R: Wait + Threads + Sync> Trial<'_, R> {
    /// The answer of the workers over this board and kind of set, with one value as the gate and as `Hire`. At the edge
    /// limit procedure 0 is named, since which one passes it first may depend on the schedule.
    fn over<B: CrewBoard, S: CrewSet>(
        &self,
        heap: B::Heap,
        alloc: S::Heap,
        limit: EdgeLimit,
        held: &Held,
        budget: u64,
    ) -> Result<Answer, NoVerdict>
        requires { (2 ≤ budget) × (budget ≤ 2 ^ 56) }
    {
        let (program, rounds) = (&self.asked.program, self.asked.rounds);
        let report = check_rounds_tried::<R, B, S, Held, Held, Global>(
            self.rt, heap, alloc, program, rounds, limit, held, held, budget,
        );
        match answer_of(report) {
            Err(NoVerdict::EdgeLimit(_)) => Err(NoVerdict::EdgeLimit(0)),
            came => came,
        }
    }

    /// The answer of the workers with these parts.
    pub fn tried(
        &self,
        parts: Parts,
        limit: EdgeLimit,
        held: &Held,
        budget: u64,
    ) -> Result<Answer, NoVerdict>
        requires { (2 ≤ budget) × (budget ≤ 2 ^ 56) }
    {
        let a = self.alloc;
        match (parts.one_lock, parts.diagrams) {
            (false, true) => self.over::<LockEach, DiagramEdges<Global>>(a, a, limit, held, budget),
            (false, false) => self.over::<LockEach, OrderedEdges<Global>>(
                a, a, limit, held, budget,
            ),
            (true, true) => self.over::<LockAll, DiagramEdges<Global>>(a, a, limit, held, budget),
            (true, false) => self.over::<LockAll, OrderedEdges<Global>>(a, a, limit, held, budget),
        }
    }

    /// The same if no lane is refused.
    fn unrefused(&self, parts: Parts, limit: EdgeLimit, budget: u64) -> Result<Answer, NoVerdict>
        requires { (2 ≤ budget) × (budget ≤ 2 ^ 56) }
    {
        self.tried(parts, limit, &Held::Open, budget)
    }

    /// Writes the results over each pair of board and set with this lane refused, after this call; once, if all come
    /// to the same.
    pub fn without_lane(
        &self,
        out: &mut String,
        lane: u8,
        after: Option<Moment>,
    ) -> Result<(), AllocError> {
        for number in 0..4u8 {
            let held = Held::Refusing(Refusing::new(lane, after));
            let came = self.tried(parts_at(number), self.asked.limit, &held, MOST_TICKETS);
            let mut one = String::new(self.alloc);
            write_came(&mut one, came)?;
            let lanes = held.asked();
            write!(&mut one, ", {lanes} asked for")?;
            if !held.is_well() {
                one.push_str(", and more came than may")?;
            }
            put(out, one.as_str())?;
        }
        Ok(())
    }

    /// Writes the results over each pair of board and set if each worker has one call fewer than this; once, if all
    /// come to the same.
    pub fn with_budget(&self, out: &mut String, budget: u64) -> Result<(), AllocError> {
        if budget < 2 || budget > MOST_TICKETS {
            return out.push_str("no such budget");
        }
        for number in 0..4u8 {
            let came = self.unrefused(parts_at(number), self.asked.limit, budget);
            let mut one = String::new(self.alloc);
            write_came(&mut one, came)?;
            put(out, one.as_str())?;
        }
        Ok(())
    }

    /// Whether with each budget from 3 to `most` the calls of some worker are used up, or this answer comes.
    fn is_spent_or(&self, most: u64, answer: Answer) -> bool {
        for budget in 3..=most.min(1_000) {
            for number in 0..4u8 {
                let came = self.unrefused(parts_at(number), self.asked.limit, budget);
                if came != Err(NoVerdict::Spent) && came != Ok(answer) {
                    return false;
                }
            }
        }
        true
    }

    /// Writes the results with budget 2, and whether with each one above, up to `most`, either calls are used up or
    /// the answer comes that comes with the greatest.
    pub fn with_budgets(&self, out: &mut String, most: u64) -> Result<(), AllocError> {
        self.with_budget(out, 2)?;
        let Ok(answer) = self.unrefused(self.asked.parts, self.asked.limit, MOST_TICKETS) else {
            return out.push_str(", and no answer");
        };
        if self.is_spent_or(most, answer) {
            write!(out, ", and from 3 on Spent or {answer:?}")
        } else {
            write!(out, ", and something else than Spent or {answer:?}")
        }
    }

    /// Writes the results over each pair of board and set with each limit of path edges in turn, if it differs
    /// from the one before.
    pub fn with_limits(&self, out: &mut String, most: u64) -> Result<(), AllocError> {
        for number in 0..4u8 {
            let mut one = String::new(self.alloc);
            let mut last = None;
            for edges in 1..=most.min(1_000) as u32 {
                let Some(limit) = EdgeLimit::new(edges) else {
                    continue;
                };
                let came = self.unrefused(parts_at(number), limit, MOST_TICKETS);
                if last != Some(came) {
                    one.push_str(if last.is_none() { "" } else { ", " })?;
                    write_came(&mut one, came)?;
                    write!(&mut one, " from {edges} on")?;
                }
                last = Some(came);
            }
            put(out, one.as_str())?;
        }
        Ok(())
    }
}
