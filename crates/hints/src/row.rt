//! The rows of the tables, and how a table is written.

use crate::group::Group;

/// What stands at the place.
#[derive(Clone, Copy)]
pub enum Next {
    /// Anything, or nothing more.
    Each,
    /// A word, which does not begin with a digit.
    Word,
    /// A word that begins with a digit and is not a constant.
    Number,
    /// Neither a word nor a sign of the language.
    Strange,
    /// Nothing more: the end of the text.
    Ended,
}

/// What a hint mentions between its two parts.
#[derive(Clone, Copy)]
pub enum Mention {
    /// Nothing.
    Nothing,
    /// The innermost `begin`, `if` or `while` that is open, and where it is.
    Block,
    /// The innermost `(` that is open, and where it is.
    Paren,
    /// Where the last token ends.
    Behind,
}

/// What a row asks of the tokens before the place and of what is there, apart from words.
#[derive(Clone, Copy)]
pub struct Pattern {
    /// The last token.
    pub last: Group,
    /// The token before it.
    pub second: Group,
    /// The last token that begins a phrase; a `;` at the end is left out.
    pub head: Group,
    /// What comes before the `(` that the last token closes, or before the innermost open one.
    pub owner: Group,
    /// What the place is in: the last `begin`, `if`, `then`, `else`, `while` or `do` of what is open.
    pub block: Group,
    /// What is there.
    pub next: Next,
    /// What the hint mentions between its parts.
    pub mention: Mention,
}

/// A pattern that fits everywhere.
pub const ANY: Pattern = Pattern {
    last: Group::Each,
    second: Group::Each,
    head: Group::Each,
    owner: Group::Each,
    block: Group::Each,
    next: Next::Each,
    mention: Mention::Nothing,
};

/// Words, or signs. An empty list stands for all.
pub type Words = &'static [&'static str];

/// A row: what it asks of the tokens, of the last one's text, of the text before the `(`, and of what is there; then
/// the hint, in two parts.
pub type Row = (Pattern, Words, Words, Words, &'static str, &'static str);

/// A row of a table: the pattern, as far as it asks for something; then, if need be, `after` with words for the last
/// token, `of` with words for what comes before the `(`, `at` with what is there; then the hint.
macro_rules! row {
    ([$($field:ident: $group:expr),*] $after:expr, $of:expr, $at:expr => $hint:expr) => {
        (Pattern { $($field: $group,)* ..ANY }, &$after, &$of, &$at, $hint, "")
    };
    ([$($field:ident: $group:expr),*] $after:expr, $of:expr, $at:expr => $front:expr,
    $mention:ident,
    $back:expr) => {
        (Pattern { $($field: $group,)* mention: Mention::$mention, ..ANY }, &$after, &$of, &$at,
        $front,
        $back)
    };
}

pub(crate) use row;
