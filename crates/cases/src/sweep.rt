//! A case that is run again and again, each time with another allocation refused.

use crate::{first_word, prefix_of};
use scarce::Scarce;
use std::alloc::Allocator;

/// More allocations than any case requests.
const MOST: u64 = 100_000;

/// Which allocations the runs of a case are refused: in run N, counted from 1, the one with the number N.
#[derive(Clone, Copy)]
pub struct Sweep {
    /// How many runs there are, if not as many as the case has allocations.
    runs: Option<u64>,
    /// Whether all later allocations are refused as well.
    and_later: bool,
}

/// The outcome of one run.
#[derive(Clone, Copy, PartialEq, Eq)]
pub enum Outcome {
    /// What the case answers with ample memory.
    Whole,
    /// Lack of memory.
    Memory,
    /// Anything else.
    Other,
}

/// The outcome of a sweep. A run is counted from 1.
#[derive(Clone, Copy, Debug, PartialEq, Eq)]
pub enum Swept {
    /// So many runs were refused an allocation, and each came to the whole answer or to lack of memory. In the next
    /// run, unless the sweep has no more, no allocation was refused, and it came to the whole answer.
    Kept(u64),
    /// The run with this number came to something else.
    Other(u64),
    /// The run with this number did not give back all memory.
    Leaked(u64),
    /// Each of very many runs was refused an allocation.
    Endless,
}

/// The sweep that the prefix of a row names: `each allocation`, `from each allocation on`, or `200 allocations`, which
/// has 200 runs.
pub fn sweep_of(prefix: &str) -> Option<Sweep> {
    let (runs, and_later) = match prefix {
        "each allocation" => (None, false),
        "from each allocation on" => (None, true),
        _ => match first_word(prefix) {
            (runs, "allocations") => (Some(runs), false),
            _ => return None,
        },
    };
    Some(Sweep { runs, and_later })
}

/// The sweep that is named before a case, if one is, and the case: `each allocation: CASE`.
pub fn sweep_before(line: &str) -> (Option<Sweep>, &str) {
    let (prefix, case) = prefix_of(line);
    match sweep_of(prefix) {
        Some(sweep) => (Some(sweep), case),
        None => (None, line),
    }
}

impl Sweep {
    /// Each allocation in turn, and no other with it.
    pub fn each() -> Sweep {
        Sweep {
            runs: None,
            and_later: false,
        }
    }

    /// Runs a case under one scarce allocator after the other. `run` gives back all memory that it takes of it.
    pub fn of<B: Allocator + Copy, F: FnMut(&Scarce<B>) -> Outcome>(
        self,
        inner: B,
        mut run: F,
    ) -> Swept
        requires { (f : _) (x : _) → F.pre f x }
    {
        for number in 1..=self.runs.unwrap_or(MOST) {
            let scarce = if self.and_later {
                Scarce::refusing_from(inner, number)
            } else {
                Scarce::refusing(inner, number)
            };
            match run(&scarce) {
                _ if scarce.live() > 0 => return Swept::Leaked(number),
                Outcome::Whole if !scarce.refused() => return Swept::Kept(number - 1),
                Outcome::Whole | Outcome::Memory if scarce.refused() => {}
                _ => return Swept::Other(number),
            }
        }
        match self.runs {
            Some(runs) => Swept::Kept(runs),
            None => Swept::Endless,
        }
    }
}
