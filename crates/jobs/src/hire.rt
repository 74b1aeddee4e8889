//! Who decides whether a job may have a thread.

ghost use Rattle.std.specs.Prelude.{IsTrue};

/// Says before each start whether a job may have a thread. If it says no, that counts as a start that the system
/// refused.
pub trait Hire {
    /// Called once for each job, in the order of their numbers, just before its start, and for no job after one that
    /// was refused.
    fn may(&self, job: u8) -> bool;
}

/// Every job may have a thread.
#[derive(Clone, Copy)]
pub struct Always;

impl Hire for Always {
    fn may(&self, job: u8) -> bool
        ensures { IsTrue result }
    {
        let _ = job;
        true
    }
}
