//! Who refuses a lane its thread.

use gather::Hire;
use procedure_worker::Gate;
use std::sync::atomic::Ordering::SeqCst;
use std::sync::atomic::{AtomicBool, AtomicU64};
use std::thread;

/// How often a refusal looks for the call that it waits for, at most.
const MOST_TURNS: u64 = 1_000_000;

/// A call of the gate: a take or a post, its lane, and its number among those of the lane.
#[derive(Clone, Copy, PartialEq, Eq)]
pub struct Moment {
    pub is_take: bool,
    pub lane: u8,
    pub count: u64,
}

/// Refuses one lane its thread, only after a given call of the gate if one is named, and records what
/// happens.
#[derive(Drop)]
pub struct Refusing {
    lane: u8,
    after: Option<Moment>,
    /// Whether the named call came.
    came: AtomicBool,
    /// How many lanes were asked for.
    asked: AtomicU64,
    /// Whether a lane from the refused one on worked, or one after it was asked for.
    behind: AtomicBool,
}

impl Refusing {
    pub fn new(lane: u8, after: Option<Moment>) -> Refusing {
        Refusing {
            lane,
            after,
            came: AtomicBool::new(false),
            asked: AtomicU64::new(0),
            behind: AtomicBool::new(false),
        }
    }

    /// How many lanes were asked for.
    pub fn asked(&self) -> u64 {
        self.asked.load(SeqCst)
    }

    /// Whether no lane from the refused one on worked, none after it was asked for, and the named call came.
    pub fn is_well(&self) -> bool {
        !self.behind.load(SeqCst) && (self.after.is_none() || self.came.load(SeqCst))
    }

    /// Notes a call of the gate.
    fn note(&self, place: Moment) {
        if place.lane >= self.lane {
            self.behind.store(true, SeqCst);
        }
        if self.after == Some(place) {
            self.came.store(true, SeqCst);
        }
    }

    /// Waits for the named call.
    fn wait(&self) {
        for _ in 0..MOST_TURNS {
            if self.after.is_none() || self.came.load(SeqCst) {
                return;
            }
            thread::yield_now();
        }
    }
}

impl Gate for Refusing {
    fn taken(&self, lane: u8, count: u64) {
        self.note(Moment {
            is_take: true,
            lane,
            count,
        });
    }

    fn posted(&self, lane: u8, count: u64) {
        self.note(Moment {
            is_take: false,
            lane,
            count,
        });
    }
}

impl Hire for Refusing {
    fn may(&self, lane: u8) -> bool {
        let _ = self.asked.fetch_add(1, SeqCst);
        if lane > self.lane {
            self.behind.store(true, SeqCst);
        }
        if lane == self.lane {
            self.wait();
        }
        lane != self.lane
    }
}
