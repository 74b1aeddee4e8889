//! The variables that are declared where a place is, and the first like a word.

ghost use Rattle.std.specs.Prelude.{◌≡◌, ◌≤◌, drop, find, length};
ghost use Rattle.std.specs.List.{prefix_len};
ghost use Rattle.fault_details.specs.Visible as told;
ghost use Rattle.tokens.specs.declared.vocabulary.Kind.TheVariants as kind;

use crate::counting::{from, list_length};
use crate::nearness::is_near;
use crate::seeking::{comes_first, to_close};
use hints::without_last;
use tokens::{Kind, Token};

/// How many tokens come before the first `(`.
fn to_paren(tokens: &[Token<'_>]) -> usize
    ensures value { result ≡ prefix_len (told.is_other kind.Open) tokens.now }
    ensures few { result ≤ length tokens.now }
{
    tokens
        .iter()
        .take_while(|token| !token.kind.is(Kind::Open))
        .count()
}

/// The tokens in which the globals are named.
pub fn globals<'a>(tokens: &'a [Token<'a>]) -> &'a [Token<'a>]
    ensures { result.now ≡ told.global_tokens tokens.now }
{
    without_last(&tokens[..to_paren(tokens)])
}

/// How many tokens come after the last `end`.
fn own_length(tokens: &[Token<'_>]) -> usize
    ensures value { result ≡ told.own_length tokens.now }
    ensures few { result ≤ length tokens.now }
{
    tokens
        .iter()
        .rev()
        .take_while(|token| !token.kind.is(Kind::End))
        .count()
}

/// The tokens of the procedure in which these tokens end.
fn own<'a>(tokens: &'a [Token<'a>]) -> &'a [Token<'a>]
    ensures { result.now ≡ told.own_tokens tokens.now }
{
    &tokens[tokens.len() - own_length(tokens)..]
}

/// The tokens in which the formals of the first procedure are named.
fn formals<'a>(tokens: &'a [Token<'a>]) -> &'a [Token<'a>]
    ensures { result.now ≡ told.formal_tokens tokens.now }
{
    let inside = &tokens[to_paren(tokens)..];
    &inside[..to_close(inside)]
}

/// Whether a token is a name like a word.
fn is_like(word: &[u8], token: &Token<'_>) -> bool
    ensures { result ≡ told.is_like word.now token.now }
{
    token.kind.is(Kind::Id) && is_near(word, token.text.as_bytes())
}

/// The first of these tokens that is a name like a word.
fn first_like<'a>(word: &[u8], tokens: &[Token<'a>]) -> Option<Token<'a>>
    ensures { result ≡ find (told.is_like word.now) tokens.now }
{
    tokens.iter().copied().find(|token| is_like(word, token))
}

/// How many tokens the list has that a `decl` at the beginning of these tokens begins; 0 without it.
fn listed_length(tokens: &[Token<'_>]) -> usize
    ensures value { result ≡ told.listed_length tokens.now }
    ensures few { result ≤ length (drop 1 tokens.now) }
{
    if comes_first(Kind::Decl, tokens) {
        list_length(from(1, tokens))
    } else {
        0
    }
}

/// The tokens of that list.
fn listed<'a, 't>(tokens: &'a [Token<'t>]) -> &'a [Token<'t>]
    ensures { result.now ≡ told.list_tokens tokens.now }
{
    let length = listed_length(tokens);
    let rest = from(1, tokens);
    &rest[..length]
}

/// The first variable like a word that is declared by `decl` among these tokens.
fn first_declared<'a>(word: &[u8], tokens: &[Token<'a>]) -> Option<Token<'a>>
    ensures { result ≡ find (told.is_like word.now) (told.declared tokens.now) }
{
    for i in 0..tokens.len() {
        let found = first_like(word, listed(&tokens[i..]));
        if found.is_some() {
            return found;
        }
    }
    None
}

/// The first variable like a word that is declared where `before` ends; `tokens` are all.
pub fn like_variable<'a>(
    tokens: &'a [Token<'a>],
    before: &'a [Token<'a>],
    word: &[u8],
) -> Option<Token<'a>>
    ensures { result ≡ told.like_variable tokens.now before.now word.now }
{
    let here = own(before);
    let local = first_declared(word, here);
    let formal = first_like(word, formals(here));
    first_like(word, globals(tokens)).or(formal.or(local))
}
