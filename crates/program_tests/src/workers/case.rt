//! One case.

use crate::workers::gates::{Late, Meeting, Noting};
use crate::workers::held::Held;
use crate::workers::program::{Parts, Trial, read_case};
use crate::workers::refusing::Moment;
use crate::workers::tried::{parts_at, put};
use cases::{prefix_of, sweep_of};
use std::alloc::{AllocError, Global};
use std::sync::Wait;
use std::thread::Threads;

/// The parts that a case begins with, and how it continues.
fn parts_of(how: &str) -> (Parts, &str) {
    let (one_lock, how) = match how.strip_prefix("one lock, ") {
        Some(how) => (true, how),
        None => (false, how),
    };
    let (diagrams, how) = match how.strip_prefix("diagrams, ") {
        Some(how) => (true, how),
        None => (false, how),
    };
    (Parts { one_lock, diagrams }, how)
}

/// Writes the result of a line.
pub fn answer<R: Wait + Threads + Sync>(
    rt: &R,
    alloc: Global,
    out: &mut String,
    line: &str,
) -> Result<(), AllocError> {
    let (how, rest) = prefix_of(line);
    let (parts, how) = parts_of(how);
    let Some((head, text)) = rest.split_once(" | ") else {
        return Ok(());
    };
    let (what, numbers) = head.split_once(' ').unwrap_or((head, ""));
    let Some(asked) = read_case(alloc, parts, numbers, text) else {
        return write!(out, "no such case");
    };
    let trial = Trial {
        rt,
        alloc,
        asked: &asked,
    };
    match how {
        "" if what == "answer" => trial.write_answer(out),
        "" => trial.with_all(out),
        "late" => trial.late(out),
        "meeting" => trial.meeting(out),
        "begun" => trial.begun(out),
        _ => match (sweep_of(how), how.split_once("but lane ")) {
            (Some(sweep), _) => trial.write_refused(out, sweep),
            (None, Some((_, rest))) => trial.but_lane(out, rest),
            (None, None) => trial.numbered(out, how),
        },
    }
}

/// The call of the gate that words name: `take 2 of lane 0`.
fn place_of(words: &str) -> Option<Moment> {
    let (call, lane) = words.split_once(" of lane ")?;
    let (what, count) = call.split_once(' ')?;
    Some(Moment {
        is_take: what == "take",
        lane: lane.parse::<u8>().ok()?,
        count: count.parse::<u64>().ok()?,
    })
}

/// Writes one of two texts on a line of its own, by whether something holds.
fn write_whether(out: &mut String, holds: bool, yes: &str, no: &str) -> Result<(), AllocError> {
    write!(out, "\n{}", if holds { yes } else { no })
}

impl<R: Wait + Threads + Sync> Trial<'_, R> {
    /// Writes the results with the named lane refused, after the named call.
    fn but_lane(&self, out: &mut String, words: &str) -> Result<(), AllocError> {
        let (lane, after) = words.split_once(" after ").unwrap_or((words, ""));
        match lane.parse::<u8>() {
            Ok(lane) => self.without_lane(out, lane, place_of(after)),
            Err(_) => write!(out, "no such lane"),
        }
    }

    /// Writes the result of one more run with these parts, if it differs from those before.
    fn again(&self, out: &mut String, parts: Parts, held: &Held) -> Result<(), AllocError> {
        let mut one = String::new(self.alloc);
        self.write_report_of(&mut one, parts, held)?;
        put(out, one.as_str())
    }

    /// Writes the result of a run over each board with each set.
    fn with_all(&self, out: &mut String) -> Result<(), AllocError> {
        for number in 0..4u8 {
            self.again(out, parts_at(number), &Held::Open)?;
        }
        Ok(())
    }

    /// Writes the result of a case that begins with a word and a number.
    fn numbered(&self, out: &mut String, how: &str) -> Result<(), AllocError> {
        let (word, number) = how.split_once(' ').unwrap_or((how, ""));
        let number = number.parse::<u64>().unwrap_or(0);
        match word {
            "budget" => self.with_budget(out, number),
            "budgets" => self.with_budgets(out, number),
            "exact" => self.with_exact(out, number),
            "limits" => self.with_limits(out, number),
            _ => self.times(out, number),
        }
    }

    /// Writes the results of `number` runs over each board with each set.
    fn times(&self, out: &mut String, number: u64) -> Result<(), AllocError> {
        for _ in 0..number {
            self.with_all(out)?;
        }
        Ok(())
    }

    /// Writes the results with each lane held back in turn.
    fn late(&self, out: &mut String) -> Result<(), AllocError> {
        for lane in 0..=self.asked.program.program().procs.len().min(31) {
            let held = Held::Late(Late { lane: lane as u8 });
            self.again(out, self.asked.parts, &held)?;
        }
        Ok(())
    }

    /// Writes the results if two calls wait for each other.
    fn meeting(&self, out: &mut String) -> Result<(), AllocError> {
        let held = Held::Meeting(Meeting::new());
        self.write_report_of(out, self.asked.parts, &held)?;
        write_whether(out, held.came(), "both met", "they did not meet")
    }

    /// Writes the results, and whether the workers have begun.
    fn begun(&self, out: &mut String) -> Result<(), AllocError> {
        let held = Held::Noting(Noting::new());
        self.write_report_of(out, self.asked.parts, &held)?;
        write_whether(out, held.came(), "all came", "not all came")
    }
}
