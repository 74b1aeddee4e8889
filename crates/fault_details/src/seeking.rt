//! Where a procedure, a name or a label stands among tokens.

ghost use Rattle.std.specs.Prelude.{◌≡◌, ◌≤◌, Bool, drop, length};
ghost use Rattle.std.specs.List.{prefix_len};
ghost use Rattle.fault_details.specs.Seeking as told;

use crate::nearness::is_near;
use tokens::{Kind, Token};

/// What is sought.
#[derive(Clone, Copy)]
pub enum Sought {
    /// A name, as it stands.
    Name,
    /// The head of a procedure: a name, its formals in parentheses, and `begin`.
    Procedure,
    /// A label: a name and `:`.
    Label,
    /// The head of a procedure whose name is like the word.
    Like,
}

/// Whether a token of this kind comes first.
pub fn comes_first(kind: Kind, tokens: &[Token<'_>]) -> bool
    ensures { result ≡ told.comes_first kind tokens.now }
{
    match tokens.first() {
        Some(first) => first.kind.is(kind),
        None => false,
    }
}

/// How many tokens come before the first `)`.
pub fn to_close(tokens: &[Token<'_>]) -> usize
    ensures value { result ≡ prefix_len told.is_inside tokens.now }
    ensures few { result ≤ length tokens.now }
{
    tokens
        .iter()
        .take_while(|token| !token.kind.is(Kind::Close))
        .count()
}

/// Whether `begin` comes after the first `)`.
fn has_body(tokens: &[Token<'_>]) -> bool
    ensures { result ≡ told.has_body tokens.now }
{
    match tokens.get(to_close(tokens).saturating_add(1)) {
        Some(token) => token.kind.is(Kind::Begin),
        None => false,
    }
}

/// Whether what is sought may be followed by these tokens.
fn goes_on(sought: Sought, rest: &[Token<'_>]) -> bool
    ensures { result ≡ told.goes_on sought rest.now }
{
    match sought {
        Sought::Name => true,
        Sought::Procedure => comes_first(Kind::Open, rest) && has_body(rest),
        Sought::Label => comes_first(Kind::Colon, rest),
        Sought::Like => comes_first(Kind::Open, rest) && has_body(rest),
    }
}

/// Whether a name is the word that is sought, or like it.
fn is_named(sought: Sought, word: &[u8], name: &[u8]) -> bool
    ensures { result ≡ told.is_named sought word.now name.now }
{
    match sought {
        Sought::Like => is_near(word, name),
        _ => name == word,
    }
}

/// Whether what is sought, with this name, stands first.
fn stands(sought: Sought, word: &[u8], tokens: &[Token<'_>]) -> bool
    ensures { result ≡ told.stands sought word.now tokens.now }
{
    match tokens.split_first() {
        Some((first, rest)) => {
            first.kind.is(Kind::Id)
                && is_named(sought, word, first.text.as_bytes())
                && goes_on(sought, rest)
        }
        None => false,
    }
}

/// The tokens from the first place on where what is sought stands; no tokens, if it stands nowhere.
pub fn seek<'a, 't>(sought: Sought, word: &[u8], tokens: &'a [Token<'t>]) -> &'a [Token<'t>]
    ensures { result.now ≡ told.seek sought word.now tokens.now }
{
    for i in 0..tokens.len() {
        if stands(sought, word, &tokens[i..]) {
            return &tokens[i..];
        }
    }
    &tokens[tokens.len()..]
}
