//! The sequential program that a text is rewritten to.

ghost use Rattle.std.specs.Prelude.{IfOk, IfErr, None};
ghost use Rattle.resolved.specs.Programs.{sequential_tree};
ghost use Rattle.round_rewrite.specs.Programs.{count_of};
ghost use Rattle.cli.specs.Refused.{RefusalStands};
ghost use Rattle.cli.specs.Rewritten.{IsRewriting};

use crate::checking::checked;
use refusals::Refusal;
use resolved::Sequential;
use round_rewrite::{RewriteFault, Rounds, rewrite, too_wide};
use std::alloc::Allocator;

/// The sequential program that a text is rewritten to for K rounds.
pub(crate) fn rewritten<A: Allocator + Copy>(
    alloc: A,
    text: &[u8],
    rounds: Rounds,
) -> Result<Sequential<A>, Refusal>
    ensures rewriting { IfOk result
        (λ s. IsRewriting text.now (count_of rounds) (sequential_tree s)) }
    ensures stands { IfErr result (RefusalStands text.now (count_of rounds) None) }
{
    let checked = checked(alloc, text)?;
    match rewrite(&alloc, &checked, rounds) {
        Ok(sequential) => Ok(sequential),
        Err(RewriteFault::TooWide) => Err(Refusal::TooWide(too_wide(&alloc, &checked, rounds))),
        Err(RewriteFault::Memory) => Err(Refusal::Memory),
    }
}
