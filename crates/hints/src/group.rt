//! Groups of kinds of tokens, which the rows of the tables name.

ghost use Rattle.std.specs.Prelude.{◌≡◌};
ghost use Rattle.hints.specs.Group as told;

use tokens::Kind;

/// A group of kinds, or of what may stand in place of a token.
#[derive(Clone, Copy)]
pub enum Group {
    /// Each kind, and no token.
    Each,
    /// No token.
    Nothing,
    /// One kind.
    Only(Kind),
    /// Either of two kinds.
    Either(Kind, Kind),
    /// The operators.
    Operator,
    /// What ends an operand: a name, a constant or `)`.
    Operand,
    /// What begins a phrase: a keyword, `;`, `:`, `:=` or `(`.
    Head,
    /// What comes directly before a statement, or before its label.
    Start,
    /// What a statement ends with: `;`, `fi` or `od`.
    Ended,
    /// `begin`, `if` and `while`, each of which is closed by a word of its own.
    Opener,
    /// These, and `then`, `else` and `do`: what a statement is in.
    Section,
    /// `if`, `while`, `assert` and `assume`, which have a condition.
    Test,
}

#[tactic(auto, unfolding(tokens::specs::Token::same_kind))]
fn is_operand(kind: Kind) -> bool
    ensures { result ≡ told.is_operand kind }
{
    matches!(kind, Kind::Id | Kind::Zero | Kind::One | Kind::Close)
}

fn is_head(kind: Kind) -> bool
    ensures { result ≡ told.is_head kind }
{
    !(kind.is_operator() || is_operand(kind) || kind.is(Kind::Comma) || kind.is(Kind::Any))
}

#[tactic(auto, unfolding(tokens::specs::Token::same_kind))]
fn is_ended(kind: Kind) -> bool
    ensures { result ≡ told.is_ended kind }
{
    matches!(kind, Kind::Semicolon | Kind::Fi | Kind::Od)
}

#[tactic(auto, unfolding(tokens::specs::Token::same_kind))]
fn is_branch(kind: Kind) -> bool
    ensures { result ≡ told.is_branch kind }
{
    matches!(kind, Kind::Then | Kind::Else | Kind::Do)
}

fn is_start(kind: Kind) -> bool
    ensures { result ≡ told.is_start kind }
{
    is_ended(kind) || is_branch(kind) || kind.is(Kind::Begin)
}

#[tactic(auto, unfolding(tokens::specs::Token::same_kind))]
pub(crate) fn is_opener(kind: Kind) -> bool
    ensures { result ≡ told.is_opener kind }
{
    matches!(kind, Kind::Begin | Kind::If | Kind::While)
}

fn is_section(kind: Kind) -> bool
    ensures { result ≡ told.is_section kind }
{
    is_opener(kind) || is_branch(kind)
}

#[tactic(auto, unfolding(tokens::specs::Token::same_kind))]
fn is_test(kind: Kind) -> bool
    ensures { result ≡ told.is_test kind }
{
    matches!(kind, Kind::If | Kind::While | Kind::Assert | Kind::Assume)
}

/// Whether a kind is in a group.
pub fn includes(group: Group, kind: Kind) -> bool
    ensures { result ≡ told.includes group kind }
{
    match group {
        Group::Each => true,
        Group::Nothing => false,
        Group::Only(one) => kind.is(one),
        Group::Either(one, other) => kind.is(one) || kind.is(other),
        Group::Operator => kind.is_operator(),
        Group::Operand => is_operand(kind),
        Group::Head => is_head(kind),
        Group::Start => is_start(kind),
        Group::Ended => is_ended(kind),
        Group::Opener => is_opener(kind),
        Group::Section => is_section(kind),
        Group::Test => is_test(kind),
    }
}

/// Whether the kind of a token, or no token, is in a group.
pub fn allows(group: Group, kind: Option<Kind>) -> bool
    ensures { result ≡ told.allows group kind }
{
    match kind {
        Some(kind) => includes(group, kind),
        None => matches!(group, Group::Each | Group::Nothing),
    }
}
