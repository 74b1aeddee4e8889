//! What the tables look at: the tokens before a place, and what is there.

ghost use Rattle.std.specs.Prelude.{◌≡◌, ◌-◌, length, take};
ghost use Rattle.hints.specs.Place as told;

use crate::front::{Brackets, front_to};
use crate::group::Group;
use tokens::{Kind, Token};

/// What is at a place, and before it.
#[derive(Clone, Copy)]
pub struct Spot<'a> {
    /// The last token.
    pub last: Option<Kind>,
    /// The token before it.
    pub second: Option<Kind>,
    /// The last token that begins a phrase.
    pub head: Option<Kind>,
    /// The token before a `(`: the one that the last token closes, or else the innermost that is open.
    pub owner: Option<Kind>,
    /// The last `begin`, `if`, `then`, `else`, `while` or `do` of what is open.
    pub block: Option<Kind>,
    /// The bytes of the last token.
    pub word: &'a [u8],
    /// The bytes of the token before the `(`.
    pub called: &'a [u8],
    /// The bytes of the text from the place on.
    pub rest: &'a [u8],
}

/// The kind of the last token.
pub fn last_kind(tokens: &[Token<'_>]) -> Option<Kind>
    ensures { result ≡ told.last_kind tokens.now }
{
    match tokens.last() {
        Some(token) => Some(token.kind),
        None => None,
    }
}

fn last_text<'a>(tokens: &'a [Token<'a>]) -> &'a [u8]
    ensures { result.now ≡ told.last_text tokens.now }
{
    match tokens.last() {
        Some(token) => token.text.as_bytes(),
        None => &[],
    }
}

/// The tokens before the last one.
pub fn without_last<'a>(tokens: &'a [Token<'a>]) -> &'a [Token<'a>]
    ensures { result.now ≡ told.without_last tokens.now }
{
    if tokens.is_empty() {
        tokens
    } else {
        &tokens[..tokens.len() - 1]
    }
}

/// The tokens, without the last one if that is of this kind.
fn without_kind<'a>(kind: Kind, tokens: &'a [Token<'a>]) -> &'a [Token<'a>]
    ensures { result.now ≡ told.without_kind kind tokens.now }
{
    match last_kind(tokens) {
        Some(last) => {
            if last.is(kind) {
                without_last(tokens)
            } else {
                tokens
            }
        }
        None => tokens,
    }
}

/// What is before a place, and at it.
pub fn spot_of<'a>(tokens: &'a [Token<'a>], rest: &'a [u8]) -> Spot<'a>
    ensures { told.surroundings_of result ≡ told.surroundings_at tokens.now rest.now }
{
    let phrase = without_kind(Kind::Semicolon, tokens);
    let inside = front_to(
        without_kind(Kind::Close, tokens),
        Brackets::Parens,
        Group::Only(Kind::Open),
    );
    let before = without_last(inside);
    Spot {
        last: last_kind(tokens),
        second: last_kind(without_last(tokens)),
        head: last_kind(front_to(phrase, Brackets::Parens, Group::Head)),
        owner: last_kind(before),
        block: last_kind(front_to(tokens, Brackets::Blocks, Group::Section)),
        word: last_text(tokens),
        called: last_text(before),
        rest,
    }
}
