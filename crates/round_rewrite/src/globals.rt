//! The globals of a rewritten program.

ghost use Rattle.std.specs.Prelude.{◌≡◌, ◌++◌, ◌+◌, ◌≤◌, ℕ, [], IfOk};
ghost use Rattle.trees.specs.Trees.{names_of};
ghost use Rattle.round_rewrite.specs.Table.{numbers, copied, globals};
ghost use Rattle.round_rewrite.specs.Names.{by_names, numbered_name};
ghost use Rattle.round_rewrite.specs.Limits.{most_rounds};

use crate::cores::{push_bits, push_name};
use crate::lists::numbered_all;
use crate::names::{COPY, GUESS};
use crate::rounds::Rounds;
use std::alloc::{AllocError, Allocator};
use trees::Name;

/// The globals in order: the copies round by round, the guesses saved, the round's bits, `stop__` and `bad__`.
pub(crate) fn globals<N: Allocator, A: Allocator + Copy>(
    alloc: &A,
    rounds: Rounds,
    xs: &[Name<N>],
) -> Result<Vec<Name<A>, A>, AllocError>
    ensures { IfOk result
        (λ v. names_of v.items ≡ globals (by_names []) rounds.last (names_of xs.now)) }
{
    let copied = for_rounds(alloc, COPY, 0, rounds.count(), xs, Vec::new(*alloc))?;
    let saved = for_rounds(alloc, GUESS, 1, rounds.last, xs, copied)?;
    let bits = push_bits(alloc, rounds.bits(), saved)?;
    let stop = push_name(alloc, "stop__", bits)?;
    push_name(alloc, "bad__", stop)
}

/// Appends the globals with a mark and the number of a round to names, for some rounds, one after the other.
fn for_rounds<N: Allocator, A: Allocator + Copy>(
    alloc: &A,
    mark: &str,
    first: u8,
    count: u8,
    xs: &[Name<N>],
    into: Vec<Name<A>, A>,
) -> Result<Vec<Name<A>, A>, AllocError>
    requires { first + count ≤ most_rounds }
    ensures { IfOk result (λ v. (last : ℕ) → names_of v.items ≡ names_of into.items
        ++ copied (by_names []) last (numbered_name mark.now) (names_of xs.now)
        (numbers first count)) }
{
    let mut list = into;
    for done in 0..count {
        list = numbered_all(alloc, mark, first + done, xs, list)?;
    }
    Ok(list)
}
