//! A text as a list of tokens.

ghost use Rattle.std.specs.Prelude.{◌≡◌, ◌≤◌, ℕ, List, length, IfOk, IfErr};
ghost use Rattle.std.specs.Str.{IsAscii};
ghost use Rattle.tokens.specs.Cuts.{Cuts, BadAt};
ghost use Rattle.tokens.specs.Fault.{NamesPlace, IsUncut};
ghost use Rattle.tokens.specs.Limits.{most_bytes};
ghost use Rattle.tokens.specs.declared.cutting.CutFault.TheVariants.{Memory};
ghost use Rattle.tokens.specs.Token.{Tok, toks_of};

use crate::piece::{Piece, front};
use crate::vocabulary::Token;
use std::alloc::{AllocFailed, Allocator};
use thiserror::Error;

/// Why a text was not cut into tokens.
#[derive(Clone, Copy, Debug, PartialEq, Eq, Error)]
pub enum CutFault {
    /// No memory was left.
    #[error("out of memory")]
    Memory,
    /// The text is not a list of tokens: neither a gap nor a token begins at this offset.
    #[error("syntax at {0}")]
    Syntax(u32),
}

impl<T: Drop> From<AllocFailed<T>> for CutFault {
    ghost from_gives = { λ _ fault. fault ≡ Memory };

    fn from(_failed: AllocFailed<T>) -> CutFault {
        CutFault::Memory
    }
}

/// The tokens of a text, in order.
pub fn cut<'a, A: Allocator>(alloc: A, text: &'a str) -> Result<Vec<Token<'a>, A>, CutFault>
    requires ascii { IsAscii text.now }
    requires within { length text.now ≤ most_bytes }
    ensures cuts { IfOk result (λ tokens. Cuts 0 text.now (toks_of tokens.items)) }
    ensures only { IfOk result
        (λ tokens. (others : List Tok) → Cuts 0 text.now others → others ≡ toks_of tokens.items) }
    ensures place { IfErr result (λ fault. NamesPlace fault text.now) }
    ensures uncut { IfErr result (λ fault. IsUncut fault text.now) }
{
    let mut tokens = Vec::new(alloc);
    let mut rest = text;
    while !rest.is_empty() {
        let at = (text.len() - rest.len()) as u32;
        match front(rest) {
            Piece::Gap(length) => rest = &rest[length..],
            Piece::Word(kind, length) => {
                let word = &rest[..length];
                tokens.push(Token {
                    kind,
                    at,
                    text: word,
                })?;
                rest = &rest[length..];
            }
            Piece::Bad => return Err(CutFault::Syntax(at)),
        }
    }
    Ok(tokens)
}

/// A law: no bytes are cut in two ways, none are both cut and bad, and none are bad in two places.
pub fn cutting_is_unique()
    ensures tokens { (at : ℕ) (bytes : List ℕ) (tokens others : List Tok)
        → Cuts at bytes tokens → Cuts at bytes others → tokens ≡ others }
    ensures uncut { (at place : ℕ) (bytes : List ℕ) (tokens : List Tok)
        → BadAt at bytes place → Cuts at bytes tokens → ⊥ }
    ensures place { (at place other : ℕ) (bytes : List ℕ)
        → BadAt at bytes place → BadAt at bytes other → place ≡ other }
{}
