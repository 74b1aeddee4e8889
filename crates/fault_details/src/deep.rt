//! Where a text becomes too deep for the reader.

ghost use Rattle.std.specs.Prelude.{IfOk};
ghost use Rattle.fault_details.specs.Deep.{GetsDeep, IsFirstDeep};

use hints::known_tokens;
use std::alloc::{AllocError, Allocator};
use tokens::{Token, is_too_deep};

/// The first token with which the tokens are too deep. It halves the tokens among which that one is.
fn first_deep<'a>(tokens: &[Token<'a>]) -> Option<Token<'a>>
    ensures { IsFirstDeep tokens.now result }
{
    if !is_too_deep(tokens) {
        return None;
    }
    let mut shallow = 0;
    let mut deep = tokens.len();
    while deep - shallow > 1 {
        let middle = shallow + (deep - shallow) / 2;
        if is_too_deep(&tokens[..middle]) {
            deep = middle;
        } else {
            shallow = middle;
        }
    }
    Some(tokens[shallow])
}

/// The first token with which a text is too deep: it opens one `(`, `begin`, `if` or `while` too many, or it is one
/// operator of a run too many. `None` if the text is not too deep, or not one of the language's tokens. The memory is
/// taken from `alloc`, and an error means that it ran out.
pub fn deep_in<'a, A: Allocator>(alloc: A, text: &'a [u8]) -> Result<Option<Token<'a>>, AllocError>
    ensures { IfOk result (λ found. GetsDeep text.now found) }
{
    match known_tokens(alloc, text) {
        Ok(Some(tokens)) => Ok(first_deep(tokens.as_slice())),
        Ok(None) => Ok(None),
        Err(_) => Err(AllocError),
    }
}
