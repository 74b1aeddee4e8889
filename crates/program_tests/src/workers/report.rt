//! The results of workers, as text.

use crate::workers::held::Held;
use crate::workers::program::{Asked, Parts, Trial, on_one_thread};
use flow_graph::Graphs;
use gather::{Answer, Report, check_rounds, check_rounds_with};
use path_sets::{DiagramEdges, OrderedEdges};
use std::alloc::{AllocError, Allocator, Global};
use std::sync::Wait;
use std::thread::Threads;
use summaries::{Due, NoVerdict, Summaries};
use switchboard::{LockPerBox, OneLock};

/// The report of the workers with these parts; those of the program are what `check_rounds` has.
fn report_of<R, A>(
    rt: &R,
    alloc: A,
    asked: &Asked,
    parts: Parts,
    held: &Held,
) -> Result<Report<A, A>, NoVerdict>
where
    R: Wait + Threads + Sync,
    A: Allocator + Copy + Send + Sync,
{
    let (program, rounds, limit) = (&asked.program, asked.rounds, asked.limit);
    match (parts.one_lock, parts.diagrams) {
        (false, true) => check_rounds(rt, alloc, program, rounds, limit, held),
        (false, false) => {
            check_rounds_with::<R, LockPerBox<Due, Graphs<A>, A>, OrderedEdges<A>, Held, Global>(
                rt, alloc, alloc, program, rounds, limit, held,
            )
        }
        (true, false) => {
            check_rounds_with::<R, OneLock<Due, Graphs<A>, A>, OrderedEdges<A>, Held, Global>(
                rt, alloc, alloc, program, rounds, limit, held,
            )
        }
        (true, true) => {
            check_rounds_with::<R, OneLock<Due, Graphs<A>, A>, DiagramEdges<A>, Held, Global>(
                rt, alloc, alloc, program, rounds, limit, held,
            )
        }
    }
}

/// Writes how many entries, pairs and takes each procedure has.
fn write_counts<A: Allocator>(out: &mut String, report: &Report<A, A>) -> Result<(), AllocError> {
    for procedure in 0..=31u8 {
        let number = usize::from(procedure);
        if number < report.summaries.len() && number < report.ledger.histories.len() {
            let entries = report.summaries.entries(procedure).len();
            let pairs = report.summaries.pairs(procedure).len();
            let takes = report.ledger.histories[number].taken();
            write!(
                out,
                "\n{procedure}: entries {entries} pairs {pairs} taken {takes}"
            )?;
        }
    }
    Ok(())
}

/// Whether two summaries have the same entries and pairs of each procedure, and are bad alike.
fn is_same(one: &Summaries<Global>, other: &Summaries<Global>) -> bool {
    let same = |procedure: u8| {
        let number = usize::from(procedure);
        if number < one.len() && number < other.len() {
            one.entries(procedure) == other.entries(procedure)
                && one.pairs(procedure) == other.pairs(procedure)
        } else {
            number >= one.len() && number >= other.len()
        }
    };
    one.bad() == other.bad() && (0..=31u8).all(same)
}

/// Writes a report, or why there is none.
fn write_report<A: Allocator>(
    out: &mut String,
    report: &Result<Report<A, A>, NoVerdict>,
) -> Result<(), AllocError> {
    match report {
        Err(why) => write!(out, "{why:?}"),
        Ok(report) => {
            let answer = match report.answer {
                Answer::Safe => "safe",
                Answer::Unsafe => "unsafe",
            };
            write!(out, "{answer}")?;
            if !report.ledger.closed {
                write!(out, ", not closed")?;
            }
            write_counts(out, report)
        }
    }
}

/// The answer of a report, or why there is none.
pub fn answer_of<H: Allocator, A: Allocator>(
    report: Result<Report<H, A>, NoVerdict>,
) -> Result<Answer, NoVerdict> {
    let report = report?;
    let answer = report.answer;
    drop(report);
    Ok(answer)
}

/// The answer alone, or why there is none.
pub fn answer<R: Wait + Threads + Sync, A: Allocator + Copy + Send + Sync>(
    rt: &R,
    alloc: A,
    asked: &Asked,
) -> Result<Answer, NoVerdict> {
    answer_of(report_of(rt, alloc, asked, asked.parts, &Held::Open))
}

impl<R: Wait + Threads + Sync> Trial<'_, R> {
    /// Writes the result of the workers with these parts, and whether one thread comes to the
    /// same.
    pub fn write_report_of(
        &self,
        out: &mut String,
        parts: Parts,
        held: &Held,
    ) -> Result<(), AllocError> {
        let report = report_of(self.rt, self.alloc, self.asked, parts, held);
        let written = self.write_compared(out, &report);
        drop(report);
        written
    }

    /// Writes a report, or why there is none, and whether one thread comes to the same.
    fn write_compared(
        &self,
        out: &mut String,
        report: &Result<Report<Global, Global>, NoVerdict>,
    ) -> Result<(), AllocError> {
        write_report(out, report)?;
        if self.is_as_on_one_thread(report) {
            return Ok(());
        }
        write!(out, "\nnot as on one thread")
    }

    /// Whether one thread comes to the same.
    fn is_as_on_one_thread(&self, report: &Result<Report<Global, Global>, NoVerdict>) -> bool {
        let summaries = on_one_thread::<_, OrderedEdges<Global>>(self.alloc, self.asked);
        let same = match (report, &summaries) {
            (Ok(report), Ok(summaries)) => is_same(&report.summaries, summaries),
            (Err(one), Err(other)) => one == other,
            _ => false,
        };
        drop(summaries);
        same
    }

    /// Writes the answer alone, or why there is none.
    pub fn write_answer(&self, out: &mut String) -> Result<(), AllocError> {
        match answer(self.rt, self.alloc, self.asked) {
            Ok(answer) => write!(out, "{answer:?}"),
            Err(why) => write!(out, "{why:?}"),
        }
    }
}
