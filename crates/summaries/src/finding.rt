//! Which pairs are new.

ghost use Rattle.std.specs.Prelude.{◌≡◌, ◌<◌, ◌≤◌, ◌∷◌, [], ◌++◌, false, length, not, IfOk, OnOk};
ghost use Rattle.std.specs.Prelude.{OnErr};
ghost use Rattle.std.specs.Bool.{OnTrue, OnFalse};
ghost use Rattle.std.specs.Map.{keys_of};
ghost use Rattle.summaries.specs.Found.{left};
ghost use Rattle.summaries.specs.Links.{owners, IsLink, AreLinked};
ghost use Rattle.summaries.specs.Hashes.{is_one_of, few, AreReal, HasAllOf, IsHashedToo};
ghost use Rattle.summaries.specs.Hashes.{IsLookedUp};

use crate::kept_pair::KeptPair;
use crate::known_entry::FEW;
use crate::linked_pair::LinkedPair;
use flow_graph::Exit;
use indexmap::IndexSet;
use language::Word;
use std::alloc::{AllocError, Allocator};
use std::hash::{BuildHasherDefault, FoldHasher};

/// The pairs that are found by their hashes.
pub(crate) type Hashed<A> = IndexSet<KeptPair, BuildHasherDefault<FoldHasher>, A>;

/// Whether a pair is among those of its entry, of which a link leads to the last.
#[inline(never)]
fn is_linked(pairs: &[LinkedPair], last: u32, entry: u32, globals: Word, returned: bool) -> bool
    requires linked { AreLinked pairs.now }
    requires last { IsLink (owners pairs.now) entry (length pairs.now) last }
    ensures { result ≡ is_one_of (keys_of pairs.now) (entry, left globals returned) }
{
    let pair = KeptPair::new(
        entry,
        Exit {
            globals,
            result: returned,
        },
    );
    let mut link = last;
    while link > 0 {
        let linked = pairs[link as usize - 1];
        if linked.pair == pair {
            return true;
        }
        link = linked.before;
    }
    false
}

/// Adds a pair to those that are found by their hashes, if it is not there, and says whether it was new.
#[inline(never)]
fn insert_hashed<A: Allocator>(
    many: &mut Hashed<A>,
    entry: u32,
    globals: Word,
    returned: bool,
) -> Result<bool, AllocError>
    ensures new { IfOk result
        (λ new. new ≡ not (is_one_of many.old.keys (entry, left globals returned))) }
    ensures ok { OnOk result
        (IsHashedToo (entry, left globals returned) many.old.keys many.new.keys) }
    ensures err { OnErr result (many.new.keys ≡ many.old.keys) }
{
    Ok(many.insert(KeptPair::new(
        entry,
        Exit {
            globals,
            result: returned,
        },
    ))?)
}

/// Adds the pairs of an entry, of which a link leads to the last, and one more to those that are found by their hashes.
/// After an error some may have been added.
#[cold]
#[inline(never)]
fn hash_all<A: Allocator>(
    many: &mut Hashed<A>,
    pairs: &[LinkedPair],
    last: u32,
    entry: u32,
    globals: Word,
    returned: bool,
) -> Result<(), AllocError>
    requires linked { AreLinked pairs.now }
    requires last { IsLink (owners pairs.now) entry (length pairs.now) last }
    requires real { AreReal many.old.keys (keys_of pairs.now) }
    ensures ok { OnOk result (IsLookedUp (keys_of pairs.now ++ (entry, left globals returned) ∷ [])
        many.old.keys many.new.keys) }
    ensures all { OnOk result
        (HasAllOf many.new.keys (keys_of pairs.now ++ (entry, left globals returned) ∷ []) entry) }
    ensures err { OnErr result (IsLookedUp (keys_of pairs.now) many.old.keys many.new.keys) }
{
    let mut link = last;
    while link > 0 {
        let linked = pairs[link as usize - 1];
        many.insert(linked.pair)?;
        link = linked.before;
    }
    insert_hashed(many, entry, globals, returned)?;
    Ok(())
}

/// Whether a pair is new to its entry, which has so many pairs, the last of which a link leads to. One that is not
/// `fresh` may be among them. If the entry has more than a few with it, it is added to those that are found by their hashes.
#[inline(always)]
pub(crate) fn is_new<A: Allocator>(
    many: &mut Hashed<A>,
    pairs: &[LinkedPair],
    last: u32,
    count: u32,
    fresh: bool,
    entry: u32,
    exit: Exit,
) -> Result<bool, AllocError>
    requires linked { AreLinked pairs.now }
    requires last { IsLink (owners pairs.now) entry (length pairs.now) last }
    requires fresh { OnTrue fresh (is_one_of (keys_of pairs.now) (entry, exit) ≡ false) }
    requires real { AreReal many.old.keys (keys_of pairs.now) }
    requires hashed { few < count → HasAllOf many.old.keys (keys_of pairs.now) entry }
    ensures new { IfOk result (λ new. new ≡ not (is_one_of (keys_of pairs.now) (entry, exit))) }
    ensures known { IfOk result (λ new. OnFalse new
        (IsLookedUp (keys_of pairs.now) many.old.keys many.new.keys)) }
    ensures added { IfOk result (λ new. OnTrue new
        (IsLookedUp (keys_of pairs.now ++ (entry, exit) ∷ []) many.old.keys many.new.keys)) }
    ensures all { IfOk result (λ new. OnTrue new
        (few ≤ count → HasAllOf many.new.keys (keys_of pairs.now ++ (entry, exit) ∷ []) entry)) }
    ensures err { OnErr result (IsLookedUp (keys_of pairs.now) many.old.keys many.new.keys) }
{
    if count > FEW {
        return insert_hashed(many, entry, exit.globals, exit.result);
    }
    if !fresh && is_linked(pairs, last, entry, exit.globals, exit.result) {
        return Ok(false);
    }
    if count == FEW {
        hash_all(many, pairs, last, entry, exit.globals, exit.result)?;
    }
    Ok(true)
}
