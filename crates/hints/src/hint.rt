//! The hint for a place where no program goes on.

ghost use Rattle.std.specs.Prelude.{◌≡◌, ◌++◌, IfOk, List, OnOk, drop, length, min, option_map};
ghost use Rattle.std.specs.Prelude.{take, ℕ};
ghost use Rattle.std.specs.String.{string_bytes};
ghost use Rattle.hints.specs.Hint as told;
ghost use Rattle.hints.specs.Place.{surroundings_at};
ghost use Rattle.hints.specs.Tables.{row_for};
ghost use Rattle.hints.specs.Row.{row_of};

use crate::front::{Brackets, front_to};
use crate::group::Group;
use crate::known::known_tokens;
use crate::place::spot_of;
use crate::row::{Mention, Row};
use crate::tables::row_for;
use diagnostics::push_place;
use std::alloc::{AllocError, Allocator};
use tokens::{Kind, Token};

/// Writes a token between quotes, and where it is; nothing, if there is no token.
fn push_token<A: Allocator>(
    message: &mut String<A>,
    text: &[u8],
    token: Option<&Token<'_>>,
) -> Result<(), AllocError>
    ensures { OnOk result (told.MentionsToken text.now (option_map (λ t. t.now) token.entry)
        (string_bytes message.old) (string_bytes message.new)) }
{
    match token {
        Some(token) => {
            let word = token.text;
            write!(message, "`{word}` at ")?;
            push_place(message, text, token.at as usize)
        }
        None => Ok(()),
    }
}

/// Writes where a token ends; nothing, if there is no token.
fn push_end<A: Allocator>(
    message: &mut String<A>,
    text: &[u8],
    token: Option<&Token<'_>>,
) -> Result<(), AllocError>
    ensures { OnOk result (told.MentionsEnd text.now (option_map (λ t. t.now) token.entry)
        (string_bytes message.old) (string_bytes message.new)) }
{
    match token {
        Some(token) => push_place(message, text, token.at as usize + token.text.len()),
        None => Ok(()),
    }
}

/// Writes what a hint tells between its parts.
fn push_mention<A: Allocator>(
    message: &mut String<A>,
    text: &[u8],
    tokens: &[Token<'_>],
    what: Mention,
) -> Result<(), AllocError>
    ensures { OnOk result (told.Mentions what text.now tokens.now
        (string_bytes message.old) (string_bytes message.new)) }
{
    match what {
        Mention::Nothing => Ok(()),
        Mention::Block => {
            let open = front_to(tokens, Brackets::Blocks, Group::Opener);
            push_token(message, text, open.last())
        }
        Mention::Paren => {
            let open = front_to(tokens, Brackets::Parens, Group::Only(Kind::Open));
            push_token(message, text, open.last())
        }
        Mention::Behind => push_end(message, text, tokens.last()),
    }
}

/// Writes words.
fn push<A: Allocator>(message: &mut String<A>, words: &str) -> Result<(), AllocError>
    ensures { OnOk result (string_bytes message.new ≡ string_bytes message.old ++ words.now) }
{
    message.push_str(words)
}

/// Writes the line of the hint of a row.
fn push_row<A: Allocator>(
    message: &mut String<A>,
    text: &[u8],
    tokens: &[Token<'_>],
    row: &Row,
) -> Result<(), AllocError>
    ensures { OnOk result (told.AddsLine text.now tokens.now (row_of row.now)
        (string_bytes message.old) (string_bytes message.new)) }
{
    push(message, "hint: ")?;
    push(message, row.4)?;
    push_mention(message, text, tokens, row.0.mention)?;
    push(message, row.5)?;
    push(message, "\n")
}

/// Writes the hint after these tokens, where this is left of the text; nothing, if no row fits.
fn push_after<A: Allocator>(
    message: &mut String<A>,
    text: &[u8],
    tokens: &[Token<'_>],
    rest: &[u8],
) -> Result<(), AllocError>
    ensures { OnOk result
        (told.AddsRow text.now tokens.now (row_for (surroundings_at tokens.now rest.now))
        (string_bytes message.old) (string_bytes message.new)) }
{
    match row_for(&spot_of(tokens, rest)) {
        Some(row) => push_row(message, text, tokens, &row),
        None => Ok(()),
    }
}

/// The bytes of a text before an offset.
fn front_of(text: &[u8], at: usize) -> &[u8]
    ensures { result.now ≡ take (min (length text.now) at) text.now }
{
    &text[..text.len().min(at)]
}

/// The bytes of a text from an offset on.
fn rest_of(text: &[u8], at: usize) -> &[u8]
    ensures { result.now ≡ drop (min (length text.now) at) text.now }
{
    &text[text.len().min(at)..]
}

/// Writes the line of the hint for an offset of a text, at which no program goes on: the first row of the tables that
/// fits the tokens before it and what is there. It writes nothing if none fits. An offset past the text counts as its
/// end. The memory for the tokens is taken from `alloc`. An error means that memory ran out; a part of the line may
/// have been written.
pub fn push_hint<A: Allocator>(
    alloc: A,
    message: &mut String<A>,
    text: &[u8],
    at: usize,
) -> Result<(), AllocError>
    ensures { OnOk result (told.AddsHint text.now (min (length text.now) at)
        (string_bytes message.old) (string_bytes message.new)) }
{
    match known_tokens(alloc, front_of(text, at)) {
        Ok(Some(tokens)) => push_after(message, text, tokens.as_slice(), rest_of(text, at)),
        Ok(None) => Ok(()),
        Err(_) => Err(AllocError),
    }
}
