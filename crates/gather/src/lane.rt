//! A lane: the pass of one mailbox, and what its worker needs.
use crate::finding::{Finding, finding_of};
use crate::kinds::{WorkBoard, WorkSet};
use jobs::Job;
use procedure_worker::{Context, Gate, Outcome, work};
use std::alloc::Allocator;
use std::marker::PhantomData;
use std::sync::Wait;
use switchboard::Cause;

/// The pass of one mailbox, and what its worker needs.
#[derive(Drop)]
pub(crate) struct Lane<'c, 'g, R, P, H: Allocator, A, B, S, K> {
    /// What all lanes share.
    pub(crate) context: &'c Context<'c, 'g, R, H, B, K>,
    /// For the table of the worker, and what is read off it.
    pub(crate) alloc: A,
    pub(crate) pass: P,
    pub(crate) number: u8,
    pub(crate) set: PhantomData<S>,
}

impl<'c, 'g, R: Wait, B: WorkBoard, S: WorkSet, K: Gate> Job
    for Lane<'c, 'g, R, B::Pass, B::Heap, S::Heap, B, S, K>
where
    B::Pass: Drop,
{
    ghost use Rattle.gather.specs.Lanes.{MayWork, RunsSo, DeclinesSo};

    type Back = (B::Pass, Finding<S::Heap>);

    ghost can_run = { MayWork B.identity B.sight };

    ghost runs = { RunsSo B.identity B.sight S.members };

    ghost declines = { DeclinesSo B.identity B.sight S.members };

    /// Works, and reads the table off at the end, in the thread of the worker.
    fn run(self) -> (B::Pass, Finding<S::Heap>) {
        let Lane {
            context,
            alloc,
            pass,
            number,
            set: _,
        } = self;
        let (pass, outcome): (B::Pass, Outcome<'g, B::Heap, S::Heap, S>) = work(
            context, alloc, pass, number,
        );
        (pass, finding_of(alloc, outcome))
    }

    /// Aborts the board for the missing thread, since the others would wait for it.
    fn decline(self) -> (B::Pass, Finding<S::Heap>) {
        let Lane {
            context,
            alloc: _,
            pass,
            number: _,
            set: _,
        } = self;
        let mut pass = pass;
        context
            .board
            .abort(context.rt, &mut pass, None, Cause::NoWorker);
        (pass, Finding::Failed(Cause::NoWorker, None))
    }
}
