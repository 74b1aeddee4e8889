//! Searches among names.

ghost use Rattle.std.specs.Prelude.{◌≡◌, ◌++◌, IfOk, IsTrue, ◌↔◌};
ghost use Rattle.language.specs.Rest.{same_text};
ghost use Rattle.trees.specs.Trees.{name_of, names_of, proc_of};
ghost use Rattle.scopes.specs.Find.{Finds, earlier_of};
ghost use Rattle.resolved.specs.Statements.{lent};
ghost use Rattle.checked.specs.Faults.{IsReserved, HasTwoUnderscores};

use crate::search::earliest;
use std::alloc::{AllocError, Allocator};
use trees::{Name, Proc};

/// The lesser of two optional offsets.
#[tactic(auto, using(crate::proofs::Found::lesser_steps))]
pub(crate) fn earlier(a: Option<u32>, b: Option<u32>) -> Option<u32>
    ensures { result ≡ earlier_of a b }
{
    match (a, b) {
        (None, b) => b,
        (Some(m), None) => Some(m),
        (Some(m), Some(n)) => { if m <= n { Some(m) } else { Some(n) } }
    }
}

/// Appends references to names to those that are there.
pub(crate) fn lend<'a, A: Allocator>(
    names: &'a [Name<A>],
    mut into: Vec<&'a Name<A>, A>,
) -> Result<Vec<&'a Name<A>, A>, AllocError>
    ensures { IfOk result (λ v. lent v.items ≡ lent into.entry.items ++ names_of names.now) }
{
    for name in names {
        into.push(name)?;
    }
    Ok(into)
}

/// References to the formals and locals of a procedure, in order.
pub(crate) fn own_names<'a, A: Allocator + Copy>(
    alloc: &A,
    proc: &'a Proc<A>,
) -> Result<Vec<&'a Name<A>, A>, AllocError>
    ensures { IfOk result
        (λ v. lent v.items ≡ (proc_of proc.now).formals ++ (proc_of proc.now).locals) }
{
    let formals = lend(&proc.formals, Vec::new(*alloc))?;
    lend(&proc.locals, formals)
}

/// Whether two names are written the same.
#[tactic(auto, using(crate::proofs::Found::same_bytes))]
pub(crate) fn is_same<A: Allocator>(x: &Name<A>, y: &Name<A>) -> bool
    ensures { result ≡ same_text (name_of x.now).text (name_of y.now).text }
{
    x.text.as_str() == y.text.as_str()
}

/// Whether a name has two underscores in a row.
pub(crate) fn has_two_underscores<A: Allocator>(x: &Name<A>) -> bool
    ensures { IsTrue result ↔ HasTwoUnderscores (name_of x.now).text }
{
    let text = x.text.as_bytes();
    for i in 1..text.len() {
        if text[i - 1] == b'_' && text[i] == b'_' {
            return true;
        }
    }
    false
}

/// The offset of a name with two underscores in a row.
#[tactic(auto, using(crate::proofs::Found::here, crate::proofs::Found::not_here))]
pub(crate) fn reserved_at<A: Allocator>(x: &Name<A>) -> Option<u32>
    ensures { Finds (λ n. (x.now.at ≡ n) × HasTwoUnderscores (name_of x.now).text) result }
{
    if has_two_underscores(x) {
        Some(x.at)
    } else {
        None
    }
}

/// The least offset of a name with two underscores in a row.
pub(crate) fn reserved<A: Allocator>(names: &[&Name<A>]) -> Option<u32>
    ensures { Finds (IsReserved (lent names.now)) result }
{
    earliest(names, |name| reserved_at(name))
}
