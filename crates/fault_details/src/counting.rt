//! How many items a list of the text has, and how many statements the text.

ghost use Rattle.std.specs.Prelude.{◌≡◌, ◌+◌, ◌-◌, ◌≤◌, count_by, drop, length, min, take};
ghost use Rattle.std.specs.List.{prefix_len};
ghost use Rattle.fault_details.specs.Counting as told;

use crate::seeking::comes_first;
use tokens::{Kind, Token};

/// How many tokens are of this kind.
pub fn count(kind: Kind, tokens: &[Token<'_>]) -> usize
    ensures value { result ≡ told.count kind tokens.now }
    ensures few { result ≤ length tokens.now }
{
    tokens.iter().filter(|token| token.kind.is(kind)).count()
}

/// Whether a token of this kind does not end a list.
fn is_listed(kind: Kind) -> bool
    ensures { result ≡ told.is_listed kind }
{
    !(kind.is(Kind::Assign) || kind.is(Kind::Semicolon) || kind.is(Kind::Begin))
}

/// How many tokens come before the first `:=`, `;` or `begin`.
pub fn list_length(tokens: &[Token<'_>]) -> usize
    ensures value { result ≡ prefix_len (λ t. told.is_listed t.kind) tokens.now }
    ensures few { result ≤ length tokens.now }
{
    tokens
        .iter()
        .take_while(|token| is_listed(token.kind))
        .count()
}

/// How many items the list has that begins with these tokens: one more than it has commas.
pub fn items(tokens: &[Token<'_>]) -> usize
    ensures { result ≡ told.items tokens.now }
{
    count(Kind::Comma, &tokens[..list_length(tokens)]) + 1
}

/// The tokens from an index on; none past the end.
pub fn from<'a, 't>(index: usize, tokens: &'a [Token<'t>]) -> &'a [Token<'t>]
    ensures { result.now ≡ drop index tokens.now }
{
    if index < tokens.len() {
        &tokens[index..]
    } else {
        &tokens[tokens.len()..]
    }
}

/// How many arguments or formals are in the parentheses after the first token.
pub fn argument_count(tokens: &[Token<'_>]) -> usize
    ensures { result ≡ told.argument_count tokens.now }
{
    if comes_first(Kind::Close, from(2, tokens)) {
        0
    } else {
        items(tokens)
    }
}

/// How many right sides come after the first `:=`.
pub fn side_count(tokens: &[Token<'_>]) -> usize
    ensures { result ≡ told.side_count tokens.now }
{
    items(from(list_length(tokens) + 1, tokens))
}

/// Whether a token of this kind ends a statement, a declaration or a thread line, or begins an `if` or a `while`.
fn is_counted(kind: Kind) -> bool
    ensures { result ≡ told.is_counted kind }
{
    kind.is(Kind::Semicolon) || kind.is(Kind::If) || kind.is(Kind::While)
}

/// Whether a token of this kind begins a declaration or a thread line.
fn is_line(kind: Kind) -> bool
    ensures { result ≡ told.is_line kind }
{
    kind.is(Kind::Decl) || kind.is(Kind::Thread)
}

/// How many statements there are.
pub fn statement_count(tokens: &[Token<'_>]) -> usize
    ensures { result ≡ told.statement_count tokens.now }
{
    let counted = tokens.iter().filter(|token| is_counted(token.kind)).count();
    let lines = tokens.iter().filter(|token| is_line(token.kind)).count();
    counted.saturating_sub(lines)
}
