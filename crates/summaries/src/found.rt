//! What the table of one procedure keeps beside its set of path edges.

ghost use Rattle.std.specs.Prelude.{◌≡◌};

use crate::calls::Calls;
use crate::due::{Caller, Due};
use crate::edge::PathEdge;
use crate::exits::Exits;
use crate::kept_edge::KeptEdge;
use crate::outbox::{Outbox, Outgoing};
use groups::Groups;
use indexmap::IndexSet;
use language::Word;
use path_sets::Halves;
use std::alloc::Allocator;
use std::hash::{BuildHasherDefault, FoldHasher};

/// What is taken, found, given and pending.
#[derive(Drop)]
pub(crate) struct Found<A: Allocator> {
    /// Who enters the procedure, by the valuation on entry.
    pub(crate) entries: Groups<Word, Caller, A>,
    /// Where calls stand, and what the procedures called leave.
    pub(crate) calls: Calls<A>,
    /// The pairs of the procedure: what is left, by the valuation on entry.
    pub(crate) exits: Exits<A>,
    /// The messages given.
    pub(crate) outbox: Outbox<A>,
    /// The edges with many choices that were expanded, so that all of these have led on, each by where choice 0 led:
    /// its entry and its point, and the valuation led to.
    pub(crate) expanded: IndexSet<KeptEdge, BuildHasherDefault<FoldHasher>, A>,
    /// The edges to work on.
    pub(crate) pending: Vec<PathEdge, A>,
    /// The place in `exits` that was used last. It is tried first, since most pairs have the entry of the pair before.
    pub(crate) last_exit: usize,
    /// The same in `entries`.
    pub(crate) last_entry: usize,
}

impl<A: Allocator + Copy> Found<A> {
    ghost use Rattle.summaries.specs.Mails.{mail};
    ghost use Rattle.summaries.specs.Found.{calls_in, pairs_in, mail_of, IsPlaced, IsEmpty};

    /// Nothing is found; this takes no memory yet.
    pub(crate) fn new(alloc: A) -> Self
        ensures { IsEmpty result }
    {
        Found {
            entries: Groups::new(alloc),
            calls: Calls::new(alloc),
            exits: Exits::new(alloc),
            outbox: Outbox::new(alloc),
            expanded: IndexSet::new(alloc),
            pending: Vec::new(alloc),
            last_exit: 0,
            last_entry: 0,
        }
    }

    /// A message given, by the number of the table's procedure, and the procedure that it goes to.
    pub(crate) fn mail(&self, procedure: u8, message: Outgoing) -> (u8, Due)
        requires { IsPlaced (calls_in self.now) (pairs_in self.now) message }
        ensures { mail result.0 result.1
            ≡ mail_of (calls_in self.now) (pairs_in self.now) procedure message }
    {
        match message {
            Outgoing::EntryFor { call } => {
                let calls = self.calls.by_key.keys();
                let call = calls.as_slice()[call as usize].call();
                let due = Due::Entry {
                    caller: Caller::Proc(procedure),
                    a: Halves::new(call.entered),
                };
                (call.callee, due)
            }
            Outgoing::SummaryFor { to, at } => {
                let pair = self.exits.pair(at);
                let due = Due::Summary {
                    p: procedure,
                    r: pair.r,
                    a: Halves::new(pair.a),
                    b: Halves::new(pair.b),
                };
                (to, due)
            }
        }
    }
}
