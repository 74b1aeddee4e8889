//! The tokens of a text that may not be ASCII, too long, or no list of tokens.

ghost use Rattle.std.specs.Prelude.{IfOk, MatchOption};
ghost use Rattle.hints.specs.Hint.{HasNoTokens};
ghost use Rattle.tokens.specs.Cuts.{Cuts};
ghost use Rattle.tokens.specs.Token.{toks_of};

use std::alloc::{AllocError, Allocator};
use tokens::{CutFault, MOST_BYTES, Token, as_ascii, cut};

/// The tokens of a text; `None` if it is not ASCII, has more than `MOST_BYTES` bytes, or is no list of tokens. Their
/// memory is taken from `alloc`, and an error means that it ran out.
pub fn known_tokens<'a, A: Allocator>(
    alloc: A,
    text: &'a [u8],
) -> Result<Option<Vec<Token<'a>, A>>, AllocError>
    ensures { IfOk result (λ known. MatchOption known (HasNoTokens text.now)
        (λ tokens. Cuts 0 text.now (toks_of tokens.items))) }
{
    if text.len() > MOST_BYTES {
        return Ok(None);
    }
    let Some(known) = as_ascii(text) else {
        return Ok(None);
    };
    match cut(alloc, known) {
        Ok(tokens) => Ok(Some(tokens)),
        Err(CutFault::Syntax(_)) => Ok(None),
        Err(CutFault::Memory) => Err(AllocError),
    }
}
