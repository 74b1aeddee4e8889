//! Workers that make no call of the board in vain, so that the number of their calls is known.

ghost use Rattle.std.specs.Prelude.{◌≤◌, ◌^◌};

use crate::workers::held::Held;
use crate::workers::program::Trial;
use crate::workers::tried::{parts_at, put, write_came};
use gather::{Answer, Hire};
use procedure_worker::Gate;
use std::alloc::AllocError;
use std::sync::Wait;
use std::sync::atomic::AtomicBool;
use std::sync::atomic::Ordering::SeqCst;
use std::thread;
use std::thread::Threads;
use summaries::NoVerdict;

/// How often a call of the gate looks for the one that it waits for, at most.
const MOST_TURNS: u64 = 1_000_000;

/// How long lane 0 waits for a completion, which no gate sees: this often it lets other threads run.
const TURNS_FOR_A_COMPLETION: u64 = 20_000;

/// How often the number of calls that is enough is tried, since a lane that waits too long may make calls in vain.
const TRIES: u64 = 20;

/// Holds the two lanes of a program with one procedure back, so that lane 0 finds a message at each take but the last,
/// which finds the close: lane 1 begins once lane 0 has posted its entry, lane 0 continues once lane 1 has posted
/// all its summaries, and lane 1 completes its message once lane 0 has taken the last of them.
#[derive(Drop)]
pub struct InTurn {
    /// How many summaries lane 1 posts.
    summaries: u64,
    entered: AtomicBool,
    answered: AtomicBool,
    taken: AtomicBool,
}

impl InTurn {
    fn new(summaries: u64) -> InTurn {
        InTurn {
            summaries,
            entered: AtomicBool::new(false),
            answered: AtomicBool::new(false),
            taken: AtomicBool::new(false),
        }
    }
}

/// Waits until a call has come.
fn wait_for(call: &AtomicBool) {
    for _ in 0..MOST_TURNS {
        if call.load(SeqCst) {
            return;
        }
        thread::yield_now();
    }
}

impl Gate for InTurn {
    fn taken(&self, lane: u8, count: u64) {
        if lane == 0 && count > self.summaries {
            self.taken.store(true, SeqCst);
            for _ in 0..TURNS_FOR_A_COMPLETION {
                thread::yield_now();
            }
        }
    }

    fn posted(&self, lane: u8, count: u64) {
        if lane == 0 {
            self.entered.store(true, SeqCst);
            wait_for(&self.answered);
        } else if count == self.summaries {
            self.answered.store(true, SeqCst);
            wait_for(&self.taken);
        }
    }
}

impl Hire for InTurn {
    fn may(&self, lane: u8) -> bool {
        if lane == 1 {
            wait_for(&self.entered);
        }
        true
    }
}

impl<R: Wait + Threads + Sync> Trial<'_, R> {
    /// The answer over a pair of board and set if each worker has one call fewer than `budget`, as often tried as
    /// given, until there is one.
    fn in_turn(
        &self,
        pair: u8,
        summaries: u64,
        budget: u64,
        tries: u64,
    ) -> Result<Answer, NoVerdict>
        requires { (2 ≤ budget) × (budget ≤ 2 ^ 56) }
    {
        for _ in 1..tries {
            let held = Held::InTurn(InTurn::new(summaries));
            let answer = self.tried(parts_at(pair), self.asked.limit, &held, budget);
            if answer.is_ok() {
                return answer;
            }
        }
        let held = Held::InTurn(InTurn::new(summaries));
        self.tried(parts_at(pair), self.asked.limit, &held, budget)
    }

    /// Writes the results over each pair of board and set with one budget less than is enough for this number of
    /// summaries, with just enough, and with one more; once, if all come to the same. Lane 0 takes its entry, posts
    /// one, completes it, takes and completes each summary, and finds the close; a budget is one more than the calls.
    pub fn with_exact(&self, out: &mut String, summaries: u64) -> Result<(), AllocError> {
        let enough = 2 * summaries.min(1_000) + 5;
        for pair in 0..4u8 {
            let mut one = String::new(self.alloc);
            for (budget, tries) in [(enough - 1, 1), (enough, TRIES), (enough + 1, TRIES)] {
                one.push_str(if one.is_empty() { "" } else { ", " })?;
                write_came(&mut one, self.in_turn(pair, summaries, budget, tries))?;
            }
            put(out, one.as_str())?;
        }
        Ok(())
    }
}
