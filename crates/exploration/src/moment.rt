//! Where a run is in its rounds.

ghost use Rattle.std.specs.Prelude.{◌<◌, ◌≤◌, ◌^◌};
ghost use Rattle.exploration.specs.Moments.{Follows};

/// Before a thread's turn in a round, both counted from 0.
#[derive(Clone, Copy)]
pub(crate) struct Moment {
    pub(crate) round: u64,
    pub(crate) thread: u8,
}

impl Moment {
    /// Before the next turn, of the next thread or of the first one in the next round.
    pub(crate) fn next(self, threads: usize) -> Moment
        requires within { self.thread < threads }
        requires few { threads ≤ 8 }
        requires room { self.round < 2 ^ 33 }
        ensures { Follows threads self result }
    {
        let thread = self.thread + 1;
        if (thread as usize) < threads {
            Moment {
                round: self.round,
                thread,
            }
        } else {
            Moment {
                round: self.round + 1,
                thread: 0,
            }
        }
    }
}
