//! The names of a rewritten program.

ghost use Rattle.std.specs.Prelude.{◌≡◌, ◌<◌, ◌^◌, IfOk};
ghost use Rattle.trees.specs.Trees.{name_of};
ghost use Rattle.round_rewrite.specs.Names.{fresh_name, bit_name, numbered_name, copy_name};
ghost use Rattle.round_rewrite.specs.Names.{drawn_name};
ghost use Rattle.round_rewrite.specs.Limits.{most_rounds};

use std::alloc::{AllocError, Allocator};
use trees::Name;

/// What stands before the round's number in the name of a global's copy.
pub(crate) const COPY: &str = "__";

/// The same in the name of a guess that is saved.
pub(crate) const GUESS: &str = "__s";

/// A name that occurs in no text.
pub(crate) fn fixed<A: Allocator>(alloc: A, text: &str) -> Result<Name<A>, AllocError>
    ensures { IfOk result (λ n. name_of n ≡ fresh_name text.now) }
{
    let text = String::from_str(alloc, text)?;
    Ok(Name { text, at: 0 })
}

/// The name of a bit of the round's number, by its own number, where the low bit is 0.
pub(crate) fn bit<A: Allocator>(alloc: A, number: u8) -> Result<Name<A>, AllocError>
    ensures { IfOk result (λ n. name_of n ≡ bit_name number) }
{
    match number {
        0 => fixed(alloc, "rl__"),
        1 => fixed(alloc, "rh__"),
        _ => fixed(alloc, "rt__"),
    }
}

/// A copy of the name.
pub(crate) fn clone_name<N: Allocator, A: Allocator>(
    alloc: A,
    x: &Name<N>,
) -> Result<Name<A>, AllocError>
    ensures { IfOk result (λ n. name_of n ≡ name_of x.now) }
{
    let text = String::from_str(alloc, x.text.as_str())?;
    Ok(Name { text, at: x.at })
}

/// The name of a global with a mark and a round's number after it; the round is counted from 0, the number from 1.
pub(crate) fn numbered<N: Allocator, A: Allocator>(
    alloc: A,
    x: &Name<N>,
    mark: &str,
    round: u8,
) -> Result<Name<A>, AllocError>
    requires { round < most_rounds }
    ensures { IfOk result (λ n. name_of n ≡ numbered_name mark.now round (name_of x.now)) }
{
    let text = x.text.as_str();
    let number = round + 1;
    let text = format!(in alloc; "{text}{mark}{number}")?;
    Ok(Name { text, at: 0 })
}

/// The copy of a global for a round, counted from 0.
pub(crate) fn copy<N: Allocator, A: Allocator>(
    alloc: A,
    round: u8,
    x: &Name<N>,
) -> Result<Name<A>, AllocError>
    requires { round < most_rounds }
    ensures { IfOk result (λ n. name_of n ≡ copy_name round (name_of x.now)) }
{
    numbered(alloc, x, COPY, round)
}

/// A temporary, counted from 0.
pub(crate) fn drawn<A: Allocator>(alloc: A, number: usize) -> Result<Name<A>, AllocError>
    requires { number < 2 ^ 63 }
    ensures { IfOk result (λ n. name_of n ≡ drawn_name number) }
{
    let number = number + 1;
    let text = format!(in alloc; "tmp__t{number}")?;
    Ok(Name { text, at: 0 })
}
