//! Evidence that there was no thread for a job.
ghost use Rattle.std.specs.Prelude.{◌≡◌, IfOk, IfErr};
ghost use Rattle.jobs.specs.Jobs.{AllCanRun, OfJob};

use crate::hire::Hire;
use crate::jobs::{Job, JobPromise};
use crate::slot::{Lineup, Slot, taken};
use std::marker::PhantomData;
use std::sync::{Mutex, Wait};
use std::thread::{PromisedHandle, Scope};

/// Evidence that the start of a job was refused, by the system or by `Hire`. No job from that one on gets a thread.
/// Nothing outside this file makes one.
#[derive(Clone, Copy)]
pub struct NoThread {
    first: u8,
}

/// Starts a thread that takes the job with this number and runs it, if it may have one and the system has one.
/// Otherwise the job is still in its slot.
pub(crate) fn start<
    's,
    'f: 's,
    E,
    R: Wait + Sync,
    L: Lineup<J> + Send + 's,
    J: Job + Send + 's,
    H: Hire,
>(
    scope: &Scope<'s, E>,
    rt: &'f R,
    slot: &'f Mutex<Slot<J, L>>,
    number: u8,
    hire: &H,
) -> Result<PromisedHandle<J::Back, JobPromise<J, L>>, NoThread>
where
    J::Back: Send + Drop + 's,
    requires { AllCanRun J.can_run L.jobs }
    ensures ok { IfOk result (λ h. h.promise.number ≡ number) }
    ensures err { IfErr result (λ no. no.first ≡ number) }
{
    if !hire.may(number) {
        return Err(NoThread { first: number });
    }
    let gives = JobPromise {
        number,
        of: PhantomData,
    };
    let work = move || -> J::Back
        requires { AllCanRun J.can_run L.jobs }
        ensures { OfJob L.jobs J.runs number result }
    { taken(rt, slot, number).run() };
    match scope.spawn_with(gives, work) {
        Ok(handle) => Ok(handle),
        Err(_) => Err(NoThread { first: number }),
    }
}
