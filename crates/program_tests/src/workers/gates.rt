//! Gates that hold workers back, or note what they did.

use procedure_worker::Gate;
use std::sync::atomic::Ordering::SeqCst;
use std::sync::atomic::{AtomicBool, AtomicU64};
use std::thread;

/// How often, at most, a call of a meeting looks for the other one.
const MOST_TURNS: u64 = 10_000_000;

/// Holds one lane back at each of its takes and posts.
#[derive(Drop)]
pub struct Late {
    pub lane: u8,
}

impl Late {
    fn keep_back(&self, lane: u8) {
        if lane == self.lane {
            for _ in 0..1000u64 {
                thread::yield_now();
            }
        }
    }
}

impl Gate for Late {
    fn taken(&self, lane: u8, count: u64) {
        let _ = count;
        self.keep_back(lane);
    }

    fn posted(&self, lane: u8, count: u64) {
        let _ = count;
        self.keep_back(lane);
    }
}

/// The first post of lane 1 and the first take of lane 2 wait for each other.
#[derive(Drop)]
pub struct Meeting {
    posted: AtomicBool,
    taken: AtomicBool,
    /// How many of the two found the other.
    met: AtomicU64,
}

impl Meeting {
    pub fn new() -> Meeting {
        Meeting {
            posted: AtomicBool::new(false),
            taken: AtomicBool::new(false),
            met: AtomicU64::new(0),
        }
    }

    /// Whether both have come, and neither gave up.
    pub fn was_held(&self) -> bool {
        self.met.load(SeqCst) == 2
    }

    fn meet(&self, here: &AtomicBool, there: &AtomicBool) {
        here.store(true, SeqCst);
        for _ in 0..MOST_TURNS {
            if there.load(SeqCst) {
                let _ = self.met.fetch_add(1, SeqCst);
                return;
            }
            thread::yield_now();
        }
    }
}

impl Gate for Meeting {
    fn taken(&self, lane: u8, count: u64) {
        if lane == 2 && count == 1 {
            self.meet(&self.taken, &self.posted);
        }
    }

    fn posted(&self, lane: u8, count: u64) {
        if lane == 1 && count == 1 {
            self.meet(&self.posted, &self.taken);
        }
    }
}

/// Notes whether lane 0 has taken and posted, and lane 1 has taken.
#[derive(Drop)]
pub struct Noting {
    came: AtomicU64,
}

impl Noting {
    pub fn new() -> Noting {
        Noting {
            came: AtomicU64::new(0),
        }
    }

    /// Whether all three came.
    pub fn has_all(&self) -> bool {
        self.came.load(SeqCst) == 3
    }
}

impl Gate for Noting {
    fn taken(&self, lane: u8, count: u64) {
        if lane <= 1 && count == 1 {
            let _ = self.came.fetch_add(1, SeqCst);
        }
    }

    fn posted(&self, lane: u8, count: u64) {
        if lane == 0 && count == 1 {
            let _ = self.came.fetch_add(1, SeqCst);
        }
    }
}
