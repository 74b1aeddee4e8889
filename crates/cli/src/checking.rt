//! The checked program of a text: what every order begins with.

ghost use Rattle.std.specs.Prelude.{ℕ, Option, IfErr, IfOk};
ghost use Rattle.checked.specs.Programs.{checked_tree};
ghost use Rattle.cli.specs.Refused.{RefusalStands};
ghost use Rattle.cli.specs.Verdict.{IsProgramOf};

use refusals::Refusal;
use scopes::{Checked, check};
use std::alloc::Allocator;
use syntax::read;

/// The checked program of a text.
pub(crate) fn checked<A: Allocator + Copy>(alloc: A, text: &[u8]) -> Result<Checked<A>, Refusal>
    ensures program { IfOk result (λ c. IsProgramOf text.now (checked_tree c)) }
    ensures stands { IfErr result
        (λ why. (rounds : ℕ) (limit : Option ℕ) → RefusalStands text.now rounds limit why) }
{
    let program = match read(alloc, text) {
        Ok(program) => program,
        Err(fault) => return Err(Refusal::Unread(fault)),
    };
    match check(alloc, program) {
        Ok(checked) => Ok(checked),
        Err(fault) => Err(Refusal::Unchecked(fault)),
    }
}
