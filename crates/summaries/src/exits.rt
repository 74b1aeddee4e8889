//! What is left, by the valuation on entry.

ghost use Rattle.std.specs.Prelude.{nat_eq};
ghost use Rattle.std.specs.List.{IsDistinct};
ghost use Rattle.std.specs.Map.{keys_of};
ghost use Rattle.std.proofs.Props.{props};
ghost use Rattle.summaries.specs.Links.{AreOwned, AreLastLinks, AreLinked};
ghost use Rattle.summaries.specs.Hashes.{AreSeen, AreReal, AreCounted, AreHashed};

use crate::finding::{Hashed, is_new};
use crate::kept_pair::KeptPair;
use crate::known_entry::{KnownEntry, one_more};
use crate::linked_pair::LinkedPair;
use crate::long_list::make_room;
use crate::outbox::index_in_32_bits;
use crate::pair::Pair;
use flow_graph::Exit;
use indexmap::{IndexMap, IndexSet};
use language::Word;
use std::alloc::{AllocError, Allocator};
use std::hash::{BuildHasherDefault, FoldHasher};

/// The place of a pair: its index among the pairs.
pub(crate) type Place = u32;

/// The pairs of a procedure, each once, in the order of adding. Links lead through those of an entry, from the last to
/// the first: a link is 0, or one more than the place of a pair.
#[derive(Drop)]
pub(crate) struct Exits<A: Allocator> {
    /// The entries, each with what is known of it. They keep the order in which they came.
    pub(crate) by_entry: IndexMap<Word, KnownEntry, BuildHasherDefault<FoldHasher>, A>,
    /// The pairs, each with the link to the pair before it of the same entry.
    pub(crate) pairs: Vec<LinkedPair, A>,
    /// The pairs of the entries that have more than a few, to be found by their hashes.
    many: Hashed<A>,
    ghost once: { IsDistinct nat_eq (keys_of by_entry.entries) } by { Prim.hlevel props },
    ghost owned: { AreOwned by_entry.entries pairs.items } by { Prim.hlevel props },
    ghost last: { AreLastLinks by_entry.entries pairs.items } by { Prim.hlevel props },
    ghost linked: { AreLinked pairs.items } by { Prim.hlevel props },
    ghost seen: { AreSeen by_entry.entries pairs.items } by { Prim.hlevel props },
    ghost real: { AreReal many.keys (keys_of pairs.items) } by { Prim.hlevel props },
    ghost counted: { AreCounted by_entry.entries pairs.items } by { Prim.hlevel props },
    ghost hashed: { AreHashed by_entry.entries many.keys pairs.items } by { Prim.hlevel props },
}

impl<A: Allocator + Copy> Exits<A> {
    ghost use Rattle.std.specs.Prelude.{◌≡◌, ◌↔◌, ℕ, nat_eq, None, Some, IsTrue, IfOk, IfSome};
    ghost use Rattle.std.specs.Prelude.{IfNone};
    ghost use Rattle.indexmap.specs.IndexMap.{keys};
    ghost use Rattle.summaries.specs.declared.pair.Pair.{Pair};
    ghost use Rattle.groups.specs.Under.{IsKeyAt};
    ghost use Rattle.summaries.specs.Exits.{pair, pair_at, count_of, LeadsTo, AllPairsStay};
    ghost use Rattle.summaries.specs.Exits.{IsPairAdded};
    ghost use Rattle.summaries.specs.Found.{left};

    /// No pairs, which take no memory yet.
    pub(crate) fn new(alloc: A) -> Self
        ensures { (at : ℕ) → pair_at result at ≡ None }
    {
        Exits {
            by_entry: IndexMap::new(alloc),
            pairs: Vec::new(alloc),
            many: IndexSet::new(alloc),
        }
    }

    /// Whether an entry is the one at an index.
    #[inline(always)]
    fn is_at(&self, at: usize, entry: Word) -> bool
        ensures { IsTrue result ↔ IsKeyAt nat_eq (keys self.now.by_entry) entry at }
    {
        match self.by_entry.get_index(at) {
            Some((known, _)) => entry == *known,
            None => false,
        }
    }

    /// The index of an entry. One that is not there is added, with no pairs.
    #[inline(never)]
    fn index_of(&mut self, entry: Word) -> Result<usize, AllocError>
        ensures at { IfOk result (λ at. IsKeyAt nat_eq (keys self.new.by_entry) entry at) }
        ensures stay { AllPairsStay self.old self.new }
    {
        if let Some(at) = self.by_entry.get_index_of(&entry) {
            return Ok(at);
        }
        let (at, _) = self.by_entry.insert_full(entry, KnownEntry::new())?;
        Ok(at)
    }

    /// Makes `last` the index of an entry. What it is before is tried first. An entry that is not there is added, with
    /// no pairs.
    #[inline(always)]
    fn find(&mut self, entry: Word, last: &mut usize) -> Result<(), AllocError>
        ensures at { IfOk result (λ _. IsKeyAt nat_eq (keys self.new.by_entry) entry last.new) }
        ensures stay { AllPairsStay self.old self.new }
    {
        if !self.is_at(*last, entry) {
            *last = self.index_of(entry)?;
        }
        Ok(())
    }

    /// Adds a pair, if it is not there, and returns its place. The entry at the index `last` is tried first, and `last`
    /// becomes the index of this one. After an error it may have been added.
    // Room is made first, since nothing may fail once the pair is found by its hash.
    #[inline(always)]
    pub(crate) fn insert_near(
        &mut self,
        entry: Word,
        left: Exit,
        last: &mut usize,
    ) -> Result<Option<Place>, AllocError>
        ensures new { IfOk result
            (λ r. IfSome r (λ at. IsPairAdded (pair entry left) at self.old self.new)) }
        ensures known { IfOk result
            (λ r. IfNone r ((at : ℕ) × (pair_at self.old at ≡ Some (pair entry left)))) }
        ensures stay { IfOk result (λ r. IfNone r (AllPairsStay self.old self.new)) }
    {
        self.find(entry, last)?;
        let at = index_in_32_bits(*last)?;
        let link = index_in_32_bits(self.pairs.len() + 1)?;
        make_room(&mut self.pairs)?;
        let Some((_, known)) = self.by_entry.get_index(*last) else {
            unreachable!()
        };
        let KnownEntry {
            mut seen,
            last: before,
            count,
        } = *known;
        let fresh = seen.add(left);
        let new = is_new(&mut self.many, &self.pairs, before, count, fresh, at, left)?;
        if !new {
            return Ok(None);
        }
        let pair = KeptPair::new(at, left);
        self.pairs.push_reserved(LinkedPair { pair, before });
        self.by_entry[*last] = KnownEntry {
            seen,
            last: link,
            count: one_more(count),
        };
        Ok(Some(link - 1))
    }

    /// The link to the last pair of an entry.
    pub(crate) fn last_of(&self, entry: Word) -> u32
        ensures { LeadsTo (pair_at self.now) entry (count_of self.now) result }
    {
        match self.by_entry.get(&entry) {
            Some(known) => known.last,
            None => 0,
        }
    }

    /// What the pair at a place leaves, and the link to the pair before it of the same entry.
    #[inline(always)]
    pub(crate) fn left_at(&self, at: Place) -> (Exit, u32)
        requires { (found : Pair) × (pair_at self.now at ≡ Some found) }
        ensures left { (found : Pair) → pair_at self.now at ≡ Some found
            → result.0 ≡ left found.b found.r }
        ensures before { (found : Pair) → pair_at self.now at ≡ Some found
            → LeadsTo (pair_at self.now) found.a at result.1 }
    {
        let linked = self.pairs[at as usize];
        (linked.pair.left(), linked.before)
    }

    /// The pair at a place.
    #[inline(always)]
    pub(crate) fn pair(&self, at: Place) -> Pair
        requires { (found : Pair) × (pair_at self.now at ≡ Some found) }
        ensures { pair_at self.now at ≡ Some result }
    {
        let linked = self.pairs[at as usize];
        let entries = self.by_entry.as_slice();
        let Some((entry, _)) = entries.get_index(linked.pair.entry() as usize) else {
            unreachable!()
        };
        let left = linked.pair.left();
        Pair {
            a: *entry,
            b: left.globals,
            r: left.result,
        }
    }
}
