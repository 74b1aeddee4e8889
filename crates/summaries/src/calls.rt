//! Calls, and what is known of them.

ghost use Rattle.std.specs.Prelude.{◌≡◌, ◌≢◌, ◌≤◌, [], ◌∷◌, ◌++◌, length, OnOk, OnErr, IfOk};
ghost use Rattle.std.specs.Bool.{OnTrue, OnFalse};
ghost use Rattle.indexmap.specs.IndexMap.{get, keys};
ghost use Rattle.indexmap.specs.IndexSet.{insert_key};
ghost use Rattle.summaries.specs.declared.edge.CallKey.{CallKey};
ghost use Rattle.summaries.specs.Chains.{chain_of};
ghost use Rattle.summaries.specs.KnownCalls.{call_eq, chain_if_any};
ghost use Rattle.groups.specs.Under.{IsKeyAt, OthersStay};

use crate::chains::Chains;
use crate::kept_call::KeptCall;
use crate::kept_edge::KeptEdge;
use crate::kept_exit::KeptExit;
use groups::Values;
use indexmap::IndexMap;
use indexmap::map::Entry;
use std::alloc::{AllocError, Allocator};
use std::hash::{BuildHasherDefault, FoldHasher};

/// What is known of a call.
#[derive(Drop)]
pub(crate) struct KnownCall<A: Allocator> {
    /// Where it stands: mostly at one site.
    pub(crate) sites: Values<KeptEdge, A>,
    /// The chain of what it leaves.
    pub(crate) chain: u32,
}

/// A call to which a site was added.
#[derive(Clone, Copy)]
pub(crate) struct Addition {
    /// Whether it had a site before.
    pub(crate) had: bool,
    /// Its place among the calls.
    pub(crate) at: usize,
    /// The chain of what it leaves.
    pub(crate) chain: u32,
}

/// For each call what is known of it. Calls keep the order in which they came.
#[derive(Drop)]
pub(crate) struct Calls<A: Allocator> {
    pub(crate) by_key: IndexMap<KeptCall, KnownCall<A>, BuildHasherDefault<FoldHasher>, A>,
    /// What all of them leave.
    pub(crate) left: Chains<A>,
    ghost within: { (k : CallKey) → chain_if_any (get call_eq by_key k) ≤ length left.links.items },
}

impl<A: Allocator + Copy> Calls<A> {
    ghost use Rattle.summaries.specs.Calls.{sites_of, summaries_of};

    /// No calls, which take no memory yet.
    pub(crate) fn new(alloc: A) -> Self
        ensures sites { (k : CallKey) → sites_of result k ≡ [] }
        ensures summaries { (k : CallKey) → summaries_of result k ≡ [] }
        ensures keys { keys result.by_key ≡ [] }
    {
        Calls {
            by_key: IndexMap::new(alloc),
            left: Chains::new(alloc),
        }
    }

    /// Adds a site to those of a call. If memory is refused, each call has the sites that it had.
    // Inlined: handing back `Addition` costs more than the rest for a new call.
    #[inline(always)]
    pub(crate) fn add_site(&mut self, key: KeptCall, site: KeptEdge) -> Result<Addition, AllocError>
        ensures had { IfOk result (λ r. OnTrue r.had (sites_of self.old key ≢ [])) }
        ensures none { IfOk result (λ r. OnFalse r.had (sites_of self.old key ≡ [])) }
        ensures at { IfOk result (λ r. IsKeyAt call_eq (keys self.new.by_key) key r.at) }
        ensures keys { OnOk result
            (keys self.new.by_key ≡ insert_key call_eq (keys self.old.by_key) key) }
        ensures added { OnOk result (sites_of self.new key ≡ sites_of self.old key ++ site ∷ []) }
        ensures others { OnOk result
            (OthersStay call_eq key (sites_of self.old) (sites_of self.new)) }
        ensures err { OnErr result (sites_of self.new ≡ sites_of self.old) }
        ensures summaries { summaries_of self.new ≡ summaries_of self.old }
        ensures chain { IfOk result
            (λ r. chain_of self.new.left.links.items r.chain ≡ summaries_of self.old key) }
    {
        let alloc = *self.by_key.allocator();
        let entry = self.by_key.entry(key)?;
        let at = entry.index();
        match entry {
            Entry::Occupied(known) => {
                let known = known.into_mut();
                let had = !known.sites.as_slice().is_empty();
                let chain = known.chain;
                known.sites.add(alloc, site)?;
                Ok(Addition { had, at, chain })
            }
            Entry::Vacant(new) => {
                new.insert(KnownCall {
                    sites: Values::one(site),
                    chain: 0,
                });
                Ok(Addition {
                    had: false,
                    at,
                    chain: 0,
                })
            }
        }
    }

    /// Adds to what a call leaves, and returns its place among the calls. If memory is refused, each call leaves what
    /// it left.
    #[inline(always)]
    pub(crate) fn add_summary(&mut self, key: KeptCall, exit: KeptExit) -> Result<usize, AllocError>
        ensures at { IfOk result (λ at. IsKeyAt call_eq (keys self.new.by_key) key at) }
        ensures keys { OnOk result
            (keys self.new.by_key ≡ insert_key call_eq (keys self.old.by_key) key) }
        ensures added { OnOk result
            (summaries_of self.new key ≡ summaries_of self.old key ++ exit ∷ []) }
        ensures others { OnOk result
            (OthersStay call_eq key (summaries_of self.old) (summaries_of self.new)) }
        ensures err { OnErr result (summaries_of self.new ≡ summaries_of self.old) }
        ensures sites { sites_of self.new ≡ sites_of self.old }
    {
        let alloc = *self.by_key.allocator();
        let entry = self.by_key.entry(key)?;
        let at = entry.index();
        let known = entry.or_insert(KnownCall {
            sites: Values::none(alloc),
            chain: 0,
        });
        known.chain = self.left.add(known.chain, exit)?;
        Ok(at)
    }

    /// Where the call at a place stands.
    pub(crate) fn sites_at(&self, at: usize) -> &[KeptEdge]
        ensures { (k : CallKey) → IsKeyAt call_eq (keys self.now.by_key) k at
            → result.now ≡ sites_of self.now k }
    {
        match self.by_key.get_index(at) {
            Some((_, known)) => known.sites.as_slice(),
            None => &[],
        }
    }
}
