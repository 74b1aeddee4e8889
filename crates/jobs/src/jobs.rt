//! Jobs, each in a thread of its own.
ghost use Rattle.std.specs.Prelude.{◌≡◌, ◌≤◌, [], length, vec_capacity, IfOk, IfSome};
ghost use Rattle.jobs.specs.Jobs.{refusal_of, AllCanRun, AreBegun, HasNoThread, AreResults, OfJob};
ghost use Rattle.jobs.specs.Jobs.{WasBegun};

use crate::hire::Hire;
use crate::no_thread::{NoThread, start};
use crate::slot::{Lineup, Slot, taken};
use std::alloc::{AllocError, Allocator};
use std::marker::{Brand, PhantomData};
use std::sync::{Mutex, Wait};
use std::thread;
use std::thread::{Promise, PromisedHandle, Scope, Threads};

/// Work for a thread of its own.
pub trait Job: Drop {
    /// What it returns.
    type Back;

    ghost can_run: { Self → Type 0 };

    ghost runs: { Self → Self.Back → Type 0 };

    ghost declines: { Self → Self.Back → Type 0 };

    /// Does the work.
    fn run(self) -> Self::Back
        requires { can_run self }
        ensures { runs self result };

    /// Does what is due if there is no thread for the work.
    fn decline(self) -> Self::Back
        requires { can_run self }
        ensures { declines self result };
}

/// The result of a job.
#[derive(Drop)]
pub enum JobResult<B> {
    /// It was run, and returned this.
    Run(B),
    /// It was declined, since there was no thread for it, and returned this.
    Declined(B, NoThread),
}

impl<B: Drop> JobResult<B> {
    ghost use Rattle.std.specs.Prelude.{◌≡◌};
    ghost use Rattle.jobs.specs.Jobs.{returned_by};

    /// What the job returned.
    pub fn returned(self) -> B
        ensures { result ≡ returned_by self }
    {
        match self {
            JobResult::Run(back) => back,
            JobResult::Declined(back, _) => back,
        }
    }
}

/// What the thread of a job promises: what the job with this number gives if it is run.
#[derive(Drop)]
pub(crate) struct JobPromise<J, L> {
    pub(crate) number: u8,
    pub(crate) of: PhantomData<(J, L)>,
}

impl<J: Job, L: Lineup<J>> Promise<J::Back> for JobPromise<J, L> {
    ghost kept_by = { λ p b. OfJob L.jobs J.runs p.number b };
}

/// A job that was begun: in a thread, which returns a `B`; or declined, since it gets none, as the second value
/// shows.
#[derive(Drop)]
pub(crate) enum Begun<B, P: Promise<B>> {
    InThread(PromisedHandle<B, P>),
    Without(B, NoThread),
}

/// Begins a job in a thread, if no earlier job was refused one, it may have one, and the system has one for it.
/// Otherwise declines it.
fn begin<'s, 'f: 's, E, R: Wait + Sync, L: Lineup<J> + Send + 's, J: Job + Send + 's, H: Hire>(
    scope: &Scope<'s, E>,
    rt: &'f R,
    slot: &'f Mutex<Slot<J, L>>,
    number: u8,
    refused: &mut Option<NoThread>,
    hire: &H,
) -> Begun<J::Back, JobPromise<J, L>>
where
    J::Back: Send + Drop + 's,
    requires runs { AllCanRun J.can_run L.jobs }
    requires before { IfSome refused.old (λ no. no.first ≤ number) }
    ensures begun { WasBegun J.declines L.jobs number result }
    ensures behind { IfSome refused.old (λ no. HasNoThread result) }
    ensures refused { refused.new ≡ refusal_of result }
{
    let none = match *refused {
        Some(none) => none,
        None => match start(scope, rt, slot, number, hire) {
            Ok(handle) => return Begun::InThread(handle),
            Err(none) => none,
        },
    };
    *refused = Some(none);
    Begun::Without(taken(rt, slot, number).decline(), none)
}

/// Begins all jobs, in their order.
fn begin_all<
    's,
    'f: 's,
    E,
    R: Wait + Sync,
    L: Lineup<J> + Send + 's,
    J: Job + Send + 's,
    H: Hire,
    A: Allocator,
>(
    scope: &Scope<'s, E>,
    rt: &'f R,
    slots: &'f [Mutex<Slot<J, L>>],
    hire: &H,
    begun: &mut Vec<Begun<J::Back, JobPromise<J, L>>, A>,
)
where
    J::Back: Send + Drop + 's,
    requires few { length slots.now ≤ 64 }
    requires all { length slots.now ≡ length L.jobs }
    requires room { length slots.now ≤ vec_capacity begun.old }
    requires empty { begun.old.items ≡ [] }
    requires runs { AllCanRun J.can_run L.jobs }
    ensures { AreBegun J.declines L.jobs begun.new.items }
{
    let mut number = 0;
    let mut refused = None;
    for slot in slots {
        begun.push_reserved(begin(scope, rt, slot, number, &mut refused, hire));
        number += 1;
    }
}

/// Waits for all jobs that were begun.
fn end_all<R: Threads, L: Lineup<J>, J: Job, A: Allocator>(
    rt: &R,
    begun: Vec<Begun<J::Back, JobPromise<J, L>>, A>,
    results: &mut Vec<JobResult<J::Back>, A>,
)
where
    J::Back: Drop,
    requires begun { AreBegun J.declines L.jobs begun.items }
    requires room { length begun.items ≤ vec_capacity results.old }
    requires empty { results.old.items ≡ [] }
    ensures { AreResults J.runs J.declines L.jobs results.new.items }
{
    for one in begun {
        results.push_reserved(match one {
            Begun::InThread(handle) => JobResult::Run(handle.join(rt)),
            Begun::Without(back, none) => JobResult::Declined(back, none),
        });
    }
}

/// Two empty lists with room for `count` items. It is generic in what they hold, so that no caller has the drop of
/// the first if memory is refused for the second.
fn rooms<T: Drop, U: Drop, A: Allocator + Copy>(
    alloc: A,
    count: usize,
) -> Result<(Vec<T, A>, Vec<U, A>), AllocError>
    ensures { IfOk result (λ r. (r.0.items ≡ []) × (count ≤ vec_capacity r.0)
        × (r.1.items ≡ []) × (count ≤ vec_capacity r.1)) }
{
    let first = Vec::with_capacity(alloc, count)?;
    let second = Vec::with_capacity(alloc, count)?;
    Ok((first, second))
}

/// A slot for each job, in their order.
fn slots_of<L: Lineup<J>, J: Drop, A: Allocator + Copy>(
    alloc: A,
    jobs: Vec<J, A>,
) -> Result<Vec<Mutex<Slot<J, L>>, A>, AllocError>
    requires few { length jobs.items ≤ 64 }
    requires all { jobs.items ≡ L.jobs }
    ensures { IfOk result (λ slots. length slots.items ≡ length L.jobs) }
{
    let mut slots = Vec::with_capacity(alloc, jobs.len())?;
    for job in jobs {
        let number = slots.len() as u8;
        slots.push_reserved(Mutex::new(Slot::new(job, number)));
    }
    Ok(slots)
}

/// Begins all jobs in one scope, and waits for them.
fn run_slots<R: Wait + Threads + Sync, L: Lineup<J> + Send, J: Job + Send, H: Hire, A: Allocator>(
    rt: &R,
    slots: &[Mutex<Slot<J, L>>],
    hire: &H,
    mut begun: Vec<Begun<J::Back, JobPromise<J, L>>, A>,
    mut results: Vec<JobResult<J::Back>, A>,
) -> Vec<JobResult<J::Back>, A>
where
    J::Back: Send + Drop,
    requires few { length slots.now ≤ 64 }
    requires all { length slots.now ≡ length L.jobs }
    requires room { (length slots.now ≤ vec_capacity begun)
        × (length slots.now ≤ vec_capacity results) }
    requires empty { (begun.items ≡ []) × (results.items ≡ []) }
    requires runs { AllCanRun J.can_run L.jobs }
    ensures { AreResults J.runs J.declines L.jobs result.items }
{
    thread::scope(
        thread::scope_env(),
        rt,
        move |scope| -> Vec<JobResult<J::Back>, A>
            requires few { length slots.now ≤ 64 }
            requires all { length slots.now ≡ length L.jobs }
            requires room { (length slots.now ≤ vec_capacity begun)
                × (length slots.now ≤ vec_capacity results) }
            requires empty { (begun.items ≡ []) × (results.items ≡ []) }
            requires runs { AllCanRun J.can_run L.jobs }
            ensures { AreResults J.runs J.declines L.jobs result.items }
        {
            begin_all(scope, rt, slots, hire, &mut begun);
            end_all(rt, begun, &mut results);
            results
        },
    )
}

/// Runs all jobs of a lineup.
fn run_lineup<
    R: Wait + Threads + Sync,
    L: Lineup<J> + Send,
    J: Job + Send,
    H: Hire,
    A: Allocator + Copy,
>(rt: &R, alloc: A, jobs: Vec<J, A>, hire: &H) -> Result<Vec<JobResult<J::Back>, A>, AllocError>
where
    J::Back: Send + Drop,
    requires few { length jobs.items ≤ 64 }
    requires all { jobs.items ≡ L.jobs }
    requires runs { AllCanRun J.can_run L.jobs }
    ensures { IfOk result (λ results. AreResults J.runs J.declines L.jobs results.items) }
{
    let (begun, results) = rooms(alloc, jobs.len())?;
    let slots = slots_of::<L, J, A>(alloc, jobs)?;
    Ok(run_slots(rt, slots.as_slice(), hire, begun, results))
}

/// Runs all jobs, each in a thread of its own, until all have ended. If a start is refused, that job and those
/// after it are declined, and `hire` is not asked again.
pub fn run_all<R: Wait + Threads + Sync, J: Job + Send, H: Hire, A: Allocator + Copy>(
    rt: &R,
    alloc: A,
    jobs: Vec<J, A>,
    hire: &H,
) -> Result<Vec<JobResult<J::Back>, A>, AllocError>
where
    J::Back: Send + Drop,
    requires few { length jobs.items ≤ 64 }
    requires runs { AllCanRun J.can_run jobs.items }
    ensures { IfOk result (λ results. AreResults J.runs J.declines jobs.items results.items) }
{
    run_lineup::<R, Brand, J, H, A>(rt, alloc, jobs, hire)
}
