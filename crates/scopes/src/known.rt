//! Names to look up by their text.

ghost use Rattle.std.specs.Prelude.{◌≡◌, IfOk, true, List, [], ◌∷◌, ◌++◌};
ghost use Rattle.language.specs.Tree as tree;
ghost use Rattle.language.specs.Resolve.{is_declared};
ghost use Rattle.trees.specs.Trees.{name_of};
ghost use Rattle.scopes.specs.Find.{Finds};
ghost use Rattle.resolved.specs.Statements.{lent};
ghost use Rattle.checked.specs.Faults.{IsUnknown, Repeated};
ghost use Rattle.scopes.specs.Known.{AreTexts};

use crate::names::earlier;
use crate::search::Answer;
use indexmap::IndexSet;
use std::alloc::{AllocError, Allocator};
use std::hash::{BuildHasherDefault, FoldHasher};
use trees::Name;

/// Texts in the order in which they are first seen.
type Texts<'a, A> = IndexSet<&'a str, BuildHasherDefault<FoldHasher>, A>;

/// Names, with their texts to look up.
#[derive(Drop)]
pub(crate) struct Known<'a, A: Allocator> {
    names: Vec<&'a Name<A>, A>,
    texts: Texts<'a, A>,
    ghost told: { AreTexts texts (lent names.items) },
}

/// The offset of a name whose text was seen before; from now on it is seen.
pub(crate) fn seen_again<'a, A: Allocator + Copy>(
    seen: &mut Texts<'a, A>,
    name: &'a Name<A>,
) -> Answer
    ensures told { (ns : List tree.Name) → AreTexts seen.old ns
        → IfOk result (λ r. AreTexts seen.new (ns ++ name_of name.now ∷ [])) }
    ensures again { (ns : List tree.Name) → AreTexts seen.old ns
        → IfOk result
        (λ r. Finds (λ n. (name.now.at ≡ n) × (is_declared (name_of name.now).text ns ≡ true)) r) }
{
    if seen.insert(name.text.as_str())? {
        Ok(None)
    } else {
        Ok(Some(name.at))
    }
}

/// The least offset of a name that is written as one before it.
pub(crate) fn repeated<A: Allocator + Copy>(alloc: A, names: &[&Name<A>]) -> Answer
    ensures { IfOk result (λ r. Finds (Repeated (lent names.now)) r) }
{
    let mut seen = IndexSet::new(alloc);
    let mut found = None;
    for name in names {
        found = earlier(found, seen_again(&mut seen, name)?);
    }
    Ok(found)
}

/// The texts of names.
pub(crate) fn texts<'a, A: Allocator + Copy>(
    alloc: A,
    names: &[&'a Name<A>],
) -> Result<Texts<'a, A>, AllocError>
    ensures { IfOk result (λ t. AreTexts t (lent names.now)) }
{
    let mut seen = IndexSet::new(alloc);
    for name in names {
        seen_again(&mut seen, name)?;
    }
    Ok(seen)
}

impl<'a, A: Allocator + Copy> Known<'a, A> {
    /// The names, to be looked up.
    pub(crate) fn new(alloc: A, names: Vec<&'a Name<A>, A>) -> Result<Self, AllocError>
        ensures { IfOk result (λ k. lent k.names.items ≡ lent names.entry.items) }
    {
        let texts = texts(alloc, &names)?;
        Ok(Known { names, texts })
    }

    /// Whether one of the names is written as `x` is.
    pub(crate) fn declares(&self, x: &Name<A>) -> bool
        ensures { result ≡ is_declared (name_of x.now).text (lent self.now.names.items) }
    {
        self.texts.contains(x.text.as_str())
    }

    /// The offset of a name that is not among those known.
    #[tactic(auto, using(crate::proofs::Found::here, crate::proofs::Found::not_here))]
    pub(crate) fn unknown(&self, x: &Name<A>) -> Option<u32>
        ensures { Finds (λ n. IsUnknown (lent self.now.names.items) n (name_of x.now)) result }
    {
        if self.declares(x) { None } else { Some(x.at) }
    }
}
