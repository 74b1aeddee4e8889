//! Texts that are put together from tokens and blanks: what they are cut into.

ghost use Rattle.std.specs.Prelude.{ℕ, List};
ghost use Rattle.std.specs.Str.{IsAscii};
ghost use Rattle.tokens.specs.Cuts.{Cuts};
ghost use Rattle.tokens.specs.Parts.{Part, text_of, tokens_of, AreApart};

/// A law: a text whose parts are spelled right and stand apart is ASCII, and is cut into the tokens of its parts.
pub fn parts_are_cut()
    ensures ascii { (parts : List Part) → AreApart parts → IsAscii (text_of parts) }
    ensures cuts { (at : ℕ) (parts : List Part) → AreApart parts
        → Cuts at (text_of parts) (tokens_of at parts) }
{}
