//! What is open at the end of some tokens.

ghost use Rattle.std.specs.Prelude.{◌≡◌};
ghost use Rattle.hints.specs.Front as told;

use crate::group::{Group, includes, is_opener};
use tokens::{Kind, Token};

/// The brackets that are matched.
#[derive(Clone, Copy)]
pub enum Brackets {
    /// `(` and `)`.
    Parens,
    /// `begin` and `end`, `if` and `fi`, `while` and `od`.
    Blocks,
}

fn is_opening(brackets: Brackets, kind: Kind) -> bool
    ensures { result ≡ told.is_opening brackets kind }
{
    match brackets {
        Brackets::Parens => kind.is(Kind::Open),
        Brackets::Blocks => is_opener(kind),
    }
}

fn is_closing(brackets: Brackets, kind: Kind) -> bool
    ensures { result ≡ told.is_closing brackets kind }
{
    match brackets {
        Brackets::Parens => kind.is(Kind::Close),
        Brackets::Blocks => matches!(kind, Kind::End | Kind::Fi | Kind::Od),
    }
}

/// The tokens up to the last one of a group that has as many openings as closings after it; no tokens, if there is
/// none.
pub fn front_to<'a, 't>(
    tokens: &'a [Token<'t>],
    brackets: Brackets,
    group: Group,
) -> &'a [Token<'t>]
    ensures { result.now ≡ told.front_to brackets group tokens.now }
{
    let mut opened: usize = 0;
    let mut closed: usize = 0;
    let mut left = tokens.len();
    while left > 0 {
        let kind = tokens[left - 1].kind;
        if includes(group, kind) && opened == closed {
            return &tokens[..left];
        }
        opened += usize::from(is_opening(brackets, kind));
        closed += usize::from(is_closing(brackets, kind));
        left -= 1;
    }
    &tokens[..0]
}
