//! The words and signs of the language, by their spelling.

ghost use Rattle.std.specs.Prelude.{◌≡◌, ◌≢◌, ◌≤◌, ◌++◌, ◌<◌, ◌∷◌, [], ℕ, List, take, length, Some};
ghost use Rattle.std.specs.Prelude.{IfSome, IfNone};
ghost use Rattle.tokens.specs.declared.vocabulary.Kind.{Kind};
ghost use Rattle.tokens.specs.Cuts.{IsLongestSign};
ghost use Rattle.tokens.specs.Spelling.{reserved_word, sign, IsWord, AreWordBytes};

use crate::vocabulary::Kind;

// The keyword or constant that is spelled so.
fn reserved(word: &str) -> Option<Kind>
    ensures some { IfSome result (λ k. reserved_word k ≡ Some word.now) }
    ensures none { IfNone result ((k : Kind) → reserved_word k ≢ Some word.now) }
{
    match word {
        "decl" => Some(Kind::Decl),
        "begin" => Some(Kind::Begin),
        "end" => Some(Kind::End),
        "thread" => Some(Kind::Thread),
        "skip" => Some(Kind::Skip),
        "if" => Some(Kind::If),
        "then" => Some(Kind::Then),
        "else" => Some(Kind::Else),
        "fi" => Some(Kind::Fi),
        "while" => Some(Kind::While),
        "do" => Some(Kind::Do),
        "od" => Some(Kind::Od),
        "assert" => Some(Kind::Assert),
        "assume" => Some(Kind::Assume),
        "goto" => Some(Kind::Goto),
        "return" => Some(Kind::Return),
        "0" => Some(Kind::Zero),
        "1" => Some(Kind::One),
        _ => None,
    }
}

// The sign of one byte.
fn short_sign(byte: u8) -> Option<Kind>
    ensures some { IfSome result (λ k. sign k ≡ Some (byte ∷ [])) }
    ensures none { IfNone result ((k : Kind) → sign k ≢ Some (byte ∷ [])) }
{
    match byte {
        b',' => Some(Kind::Comma),
        b';' => Some(Kind::Semicolon),
        b':' => Some(Kind::Colon),
        b'(' => Some(Kind::Open),
        b')' => Some(Kind::Close),
        b'?' => Some(Kind::Any),
        b'|' => Some(Kind::Or),
        b'^' => Some(Kind::Xor),
        b'&' => Some(Kind::And),
        b'=' => Some(Kind::Equal),
        b'!' => Some(Kind::Not),
        _ => None,
    }
}

// The sign of two bytes.
fn long_sign(first: u8, second: u8) -> Option<Kind>
    ensures some { IfSome result (λ k. sign k ≡ Some (first ∷ second ∷ [])) }
    ensures none { IfNone result ((k : Kind) → sign k ≢ Some (first ∷ second ∷ [])) }
{
    match (first, second) {
        (b':', b'=') => Some(Kind::Assign),
        (b'=', b'>') => Some(Kind::Implies),
        (b'!', b'=') => Some(Kind::Differs),
        _ => None,
    }
}

// The kind of a word, if it is one of the language: a word that begins with a digit is `0` or `1`.
pub(crate) fn word_kind(word: &str) -> Option<Kind>
    requires some { 0 < length word.now }
    requires bytes { AreWordBytes word.now }
    ensures some { IfSome result (λ k. IsWord k word.now) }
    ensures none { IfNone result ((k : Kind) → IsWord k word.now → ⊥) }
{
    if let Some(kind) = reserved(word) {
        return Some(kind);
    }
    if word.as_bytes()[0].is_ascii_digit() {
        None
    } else {
        Some(Kind::Id)
    }
}

// The longest sign at the front of a text, with its length.
pub(crate) fn sign_at_front(bytes: &[u8]) -> Option<(Kind, usize)>
    requires { 0 < length bytes.now }
    ensures within { IfSome result (λ found. found.1 ≤ length bytes.now) }
    ensures some { IfSome result (λ found. sign found.0 ≡ Some (take found.1 bytes.now)) }
    ensures longest { IfSome result (λ found. IsLongestSign (take found.1 bytes.now) bytes.now) }
    ensures none { IfNone result
        ((k : Kind) (spelled rest : List ℕ) → sign k ≡ Some spelled → bytes.now ≢ spelled ++ rest) }
{
    let first = bytes[0];
    if bytes.len() >= 2 {
        if let Some(kind) = long_sign(first, bytes[1]) {
            return Some((kind, 2));
        }
    }
    match short_sign(first) {
        Some(kind) => Some((kind, 1)),
        None => None,
    }
}
