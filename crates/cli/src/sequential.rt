//! The rewritten program of a text, printed.

ghost use Rattle.std.specs.Prelude.{IfOk, IfErr, None};
ghost use Rattle.std.specs.String.{string_bytes};
ghost use Rattle.round_rewrite.specs.Programs.{count_of};
ghost use Rattle.cli.specs.Refused.{RefusalStands};
ghost use Rattle.cli.specs.Replies.{IsSequential};

use crate::rewriting::rewritten;
use refusals::Refusal;
use round_rewrite::Rounds;
use std::alloc::Allocator;
use syntax::print;

/// The printed form of the sequential program that a text is rewritten to for K rounds.
pub(crate) fn sequential<A: Allocator + Copy>(
    alloc: A,
    text: &[u8],
    rounds: Rounds,
) -> Result<String<A>, Refusal>
    ensures printed { IfOk result (λ s. IsSequential text.now (count_of rounds) (string_bytes s)) }
    ensures stands { IfErr result (RefusalStands text.now (count_of rounds) None) }
{
    let sequential = rewritten(alloc, text, rounds)?;
    let Ok(printed) = print(alloc, sequential.program()) else {
        return Err(Refusal::Memory);
    };
    Ok(printed)
}
