//! Where an offset of a text is, for a reader: its line, its column, and the line itself.

ghost use Rattle.std.specs.Prelude.{◌≡◌, ◌≢◌, ◌-◌, ◌<◌, ◌≤◌, ℕ, length, slice_index};
ghost use Rattle.diagnostics.specs.Position.{IsPosition, newlines};

/// Where an offset of a text is.
#[derive(Clone, Copy)]
pub(crate) struct Position<'a> {
    /// The number of the line, counted from 1.
    pub line: usize,
    /// The number of the byte in the line, counted from 1.
    pub column: usize,
    /// The bytes of the line before the place.
    pub before: &'a [u8],
    /// The bytes of the line from the place on, without the newline.
    pub behind: &'a [u8],
}

/// How many newlines some bytes contain.
fn newlines_in(bytes: &[u8]) -> usize
    ensures count { result ≡ newlines bytes.now }
    ensures few { result ≤ length bytes.now }
{
    bytes.iter().filter(|byte| **byte == b'\n').count()
}

/// Where the line that contains the offset begins.
fn start_of(text: &[u8], at: usize) -> usize
    requires { at ≤ length text.now }
    ensures within { result ≤ at }
    ensures inside { (k : ℕ) → result ≤ k → k < at → slice_index text.now k ≢ 10 }
    ensures begins { 0 < result → slice_index text.now (result - 1) ≡ 10 }
{
    let mut start = 0;
    for i in 0..at {
        if text[i] == b'\n' {
            start = i + 1;
        }
    }
    start
}

/// Where the line that contains the offset ends: at its newline, or at the end of the text.
fn end_of(text: &[u8], at: usize) -> usize
    requires { at ≤ length text.now }
    ensures from { at ≤ result }
    ensures within { result ≤ length text.now }
    ensures inside { (k : ℕ) → at ≤ k → k < result → slice_index text.now k ≢ 10 }
    ensures ends { result < length text.now → slice_index text.now result ≡ 10 }
{
    for i in at..text.len() {
        if text[i] == b'\n' {
            return i;
        }
    }
    text.len()
}

/// Where an offset is.
pub(crate) fn position_of<'a>(text: &'a [u8], at: usize) -> Position<'a>
    requires { at ≤ length text.now }
    ensures { IsPosition text.now at result.line result.column result.before.now result.behind.now }
{
    let start = start_of(text, at);
    let end = end_of(text, at);
    Position {
        line: newlines_in(&text[..at]) + 1,
        column: at - start + 1,
        before: &text[start..at],
        behind: &text[at..end],
    }
}
