//! Kinds of tokens, and tokens that borrow the text they are in.

ghost use Rattle.std.specs.Prelude.{◌≡◌, ◌↔◌, IsTrue};
ghost use Rattle.tokens.specs.Token.{same_kind, is_operator};

/// What a token is: a keyword, a sign, a name, or one of the two constants.
#[derive(Clone, Copy, Debug)]
pub enum Kind {
    /// `decl`
    Decl,
    /// `begin`
    Begin,
    /// `end`
    End,
    /// `thread`
    Thread,
    /// `skip`
    Skip,
    /// `if`
    If,
    /// `then`
    Then,
    /// `else`
    Else,
    /// `fi`
    Fi,
    /// `while`
    While,
    /// `do`
    Do,
    /// `od`
    Od,
    /// `assert`
    Assert,
    /// `assume`
    Assume,
    /// `goto`
    Goto,
    /// `return`
    Return,
    /// `,`
    Comma,
    /// `;`
    Semicolon,
    /// `:`
    Colon,
    /// `:=`
    Assign,
    /// `(`
    Open,
    /// `)`
    Close,
    /// `?`
    Any,
    /// `=>`
    Implies,
    /// `|`
    Or,
    /// `^`
    Xor,
    /// `&`
    And,
    /// `=`
    Equal,
    /// `!=`
    Differs,
    /// `!`
    Not,
    /// A name: a word that begins with a letter or an underscore and is not a keyword.
    Id,
    /// `0`
    Zero,
    /// `1`
    One,
}

impl Kind {
    /// Whether this is the other kind. In contracts, prefer this to `==`: it says what the answer means.
    #[tactic(auto, unfolding(crate::specs::Token::same_kind))]
    pub fn is(self, other: Kind) -> bool
        ensures value { result ≡ same_kind self other }
        ensures same { IsTrue result ↔ (self ≡ other) }
    {
        self == other
    }

    /// Whether this is an operator: `=>`, `|`, `^`, `&`, `=`, `!=` or `!`.
    pub fn is_operator(self) -> bool
        ensures { result ≡ is_operator self }
    {
        matches!(
            self,
            Kind::Implies
                | Kind::Or
                | Kind::Xor
                | Kind::And
                | Kind::Equal
                | Kind::Differs
                | Kind::Not
        )
    }
}

/// A token of a text.
#[derive(Clone, Copy)]
pub struct Token<'a> {
    /// Its kind.
    pub kind: Kind,
    /// The offset of its first byte.
    pub at: u32,
    /// Its bytes.
    pub text: &'a str,
}
