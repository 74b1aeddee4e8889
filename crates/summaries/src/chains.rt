//! Chains of what calls leave.

ghost use Rattle.std.specs.Prelude.{◌≡◌, ◌≤◌, ◌<◌, [], ◌∷◌, ◌++◌, length};
ghost use Rattle.std.specs.Prelude.{IfOk, IfSome, IfNone, OnOk, OnErr};
ghost use Rattle.summaries.specs.Chains.{link, chain_of, LeadBack};

use crate::kept_exit::KeptExit;
use crate::long_list::append;
use crate::outbox::index_in_32_bits;
use flow_graph::Exit;
use std::alloc::{AllocError, Allocator};

/// What a call leaves, and the chain of what it left before.
#[derive(Clone, Copy)]
pub(crate) struct Link {
    pub(crate) exit: KeptExit,
    pub(crate) before: u32,
}

/// What calls leave, as a chain for each call; all links are in one list, since most chains are short. The number of a
/// chain is one more than the index of its last link, or 0 if it has none.
#[derive(Drop)]
pub(crate) struct Chains<A: Allocator> {
    pub(crate) links: Vec<Link, A>,
    ghost back: { LeadBack links.items },
}

impl<A: Allocator> Chains<A> {
    /// No links, which take no memory yet.
    pub(crate) fn new(alloc: A) -> Self
        ensures { result.links.items ≡ [] }
    {
        Chains {
            links: Vec::new(alloc),
        }
    }

    /// Adds a link behind a chain, and returns the chain that it ends. If memory is refused, nothing changes.
    #[inline(always)]
    pub(crate) fn add(&mut self, chain: u32, exit: KeptExit) -> Result<u32, AllocError>
        requires { chain ≤ length self.old.links.items }
        ensures ok { OnOk result
            (self.new.links.items ≡ self.old.links.items ++ link exit chain ∷ []) }
        ensures chain { IfOk result (λ c. c ≡ length self.new.links.items) }
        ensures err { OnErr result (self.new.links.items ≡ self.old.links.items) }
    {
        let added = index_in_32_bits(self.links.len() + 1)?;
        let link = Link {
            exit,
            before: chain,
        };
        append(&mut self.links, link)?;
        Ok(added)
    }

    /// What the last link of a chain tells, and the chain before that link, if it has a link.
    pub(crate) fn last(&self, chain: u32) -> Option<(Exit, u32)>
        ensures some { IfSome result (λ l. chain_of self.now.links.items chain
            ≡ chain_of self.now.links.items l.1 ++ l.0 ∷ []) }
        ensures before { IfSome result (λ l. l.1 < chain) }
        ensures none { IfNone result (chain_of self.now.links.items chain ≡ []) }
    {
        if chain == 0 {
            return None;
        }
        let link = self.links.get(chain as usize - 1)?;
        Some((link.exit.exit(), link.before))
    }
}
