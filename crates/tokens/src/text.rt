//! Bytes as a text.

ghost use Rattle.std.specs.Prelude.{◌≡◌, IfSome, MatchOption};
ghost use Rattle.std.specs.Str.{IsAscii};

/// The bytes as a text, if each of them is ASCII.
pub fn as_ascii(bytes: &[u8]) -> Option<&str>
    ensures same { IfSome result (λ text. text.now ≡ bytes.now) }
    ensures ascii { MatchOption result (¬ (IsAscii bytes.now)) (λ _. IsAscii bytes.now) }
{
    if !bytes.is_ascii() {
        return None;
    }
    // Text of ASCII bytes is UTF-8.
    let Ok(text) = str::from_utf8(bytes) else {
        return None;
    };
    Some(text)
}
