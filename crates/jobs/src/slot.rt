//! Where a job waits for its thread.
ghost use Rattle.std.specs.Prelude.{◌≡◌, [], List, Some, slice_get, IfSome, IsNone};
ghost use Rattle.std.specs.Option.{ForSome};

use std::marker::{Brand, PhantomData};
use std::sync::{Mutex, Wait};

/// Which jobs there are, in their order, for proofs alone. Each call of `run_all` picks it.
pub(crate) trait Lineup<J> {
    ghost jobs: { List J };
}

impl<J> Lineup<J> for Brand {
    ghost jobs = { [] };
}

/// The job with a number, until it is taken. A thread's closure has only a reference to it, so if the start is
/// refused, the starter still has the job.
#[derive(Drop)]
pub(crate) struct Slot<J, L: Lineup<J>> {
    job: Option<J>,
    number: u8,
    of: PhantomData<L>,
    ghost own: { ForSome job (λ j. slice_get L.jobs number ≡ Some j) },
}

impl<J, L: Lineup<J>> Slot<J, L> {
    /// The job with this number.
    pub(crate) fn new(job: J, number: u8) -> Slot<J, L>
        requires { slice_get L.jobs number ≡ Some job }
    {
        Slot {
            job: Some(job),
            number,
            of: PhantomData,
        }
    }

    /// The job with this number, if it is there.
    fn take(&mut self, number: u8) -> Option<J>
        ensures own { IfSome result (λ j. slice_get L.jobs number ≡ Some j) }
        ensures here { self.old.number ≡ number → result ≡ self.old.job }
        ensures kept { IsNone result → self.new.job ≡ self.old.job }
        ensures number { self.new.number ≡ self.old.number }
    {
        if self.number == number {
            self.job.take()
        } else {
            None
        }
    }
}

/// Takes the job with this number, as soon as it is there. It is there from the start, but no contract says what a
/// lock keeps.
pub(crate) fn taken<R: Wait, J, L: Lineup<J>>(rt: &R, slot: &Mutex<Slot<J, L>>, number: u8) -> J
    ensures { slice_get L.jobs number ≡ Some result }
{
    for _ in rt.forever() {
        if let Some(job) = slot.lock(rt).take(number) {
            return job;
        }
    }
    unreachable!()
}
