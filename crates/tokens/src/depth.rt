//! How deep tokens nest, and how many operators one run has.

ghost use Rattle.std.specs.Prelude.{◌≡◌, ◌↔◌, IsTrue};
ghost use Rattle.tokens.specs.Depth.{opens, closes, ends_run, NestsTooDeep, HasLongRun, TooDeep};
ghost use Rattle.tokens.specs.Token.{toks_of};

use crate::vocabulary::{Kind, Token};

/// The most tokens that may be open at once, and the most operators in one run.
const LIMIT: usize = 64;

fn opens(kind: Kind) -> bool
    ensures { result ≡ opens kind }
{
    matches!(kind, Kind::Open | Kind::Begin | Kind::If | Kind::While)
}

fn closes(kind: Kind) -> bool
    ensures { result ≡ closes kind }
{
    matches!(kind, Kind::Close | Kind::End | Kind::Fi | Kind::Od)
}

// Whether a token of this kind ends a run of operators: a keyword, `,`, `;` or `:=`.
fn ends_run(kind: Kind) -> bool
    ensures { result ≡ ends_run kind }
{
    match kind {
        Kind::Decl | Kind::Begin | Kind::End | Kind::Thread | Kind::Skip | Kind::If => true,
        Kind::Then | Kind::Else | Kind::Fi | Kind::While | Kind::Do | Kind::Od => true,
        Kind::Assert | Kind::Assume | Kind::Goto | Kind::Return => true,
        Kind::Comma | Kind::Semicolon | Kind::Assign => true,
        _ => false,
    }
}

fn nests_too_deep(tokens: &[Token]) -> bool
    ensures { IsTrue result ↔ NestsTooDeep (toks_of tokens.now) }
{
    // Nesting may fall below zero, so openings and closings are counted apart.
    let mut openings: usize = 0;
    let mut closings: usize = 0;
    for token in tokens {
        openings += usize::from(opens(token.kind));
        closings += usize::from(closes(token.kind));
        if openings > LIMIT + closings {
            return true;
        }
    }
    false
}

fn has_long_run(tokens: &[Token]) -> bool
    ensures { IsTrue result ↔ HasLongRun (toks_of tokens.now) }
{
    let mut operators: usize = 0;
    for token in tokens {
        operators = if ends_run(token.kind) {
            0
        } else {
            operators + usize::from(token.kind.is_operator())
        };
        if operators > LIMIT {
            return true;
        }
    }
    false
}

/// Whether the tokens nest too deep for the reader: after some token more than 64 more of `(`, `begin`, `if` and
/// `while` have come than of `)`, `end`, `fi` and `od`, or more than 64 operators are in one stretch that has no
/// keyword, `,`, `;` or `:=`.
pub fn is_too_deep(tokens: &[Token]) -> bool
    ensures { IsTrue result ↔ TooDeep (toks_of tokens.now) }
{
    nests_too_deep(tokens) || has_long_run(tokens)
}
