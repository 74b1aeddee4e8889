//! The kinds of lines that a check may write.

/// A kind of line: how it begins, its status, and whether the number of an offset follows.
pub type Kind = (&'static str, u8, bool);

/// What is listed for each line that is of no kind.
pub const OTHER: &str = "other";

/// All kinds, in the order in which they are listed, and `OTHER`.
pub const KINDS: &[Kind] = &[
    ("safe", 0, false),
    ("unsafe", 1, false),
    ("refused: 1 too long", 2, false),
    ("refused: 2 not ascii", 2, false),
    ("refused: 3 syntax", 2, true),
    ("refused: 4 too deep", 2, false),
    ("refused: 6 undeclared", 2, true),
    ("refused: 7 declared twice", 2, true),
    ("refused: 8 wrong count", 2, true),
    ("refused: 9 bad thread", 2, true),
    ("refused: 10 bad label", 2, true),
    ("refused: 11 reserved", 2, true),
    ("refused: 12 too many", 2, true),
    ("refused: 14 too wide", 2, false),
    ("no verdict: edge limit", 3, false),
    (OTHER, 0, false),
];

/// How a line begins, and whether a number follows after ` at `.
fn head_of(line: &str) -> (&str, bool) {
    match line.split_once(" at ") {
        Some((head, offset)) if is_number(offset) => (head, true),
        _ => (line, false),
    }
}

fn is_number(text: &str) -> bool {
    !text.is_empty() && text.bytes().all(|byte| byte.is_ascii_digit())
}

/// Which kind a reply is: one line, with the status of its kind.
pub fn kind_of(written: &str, status: u8) -> &'static str {
    let Some(line) = written.strip_suffix('\n') else {
        return OTHER;
    };
    let (head, located) = head_of(line);
    let is_of = |kind: &Kind| kind.0 == head && kind.1 == status && kind.2 == located;
    match KINDS.iter().find(|kind| is_of(*kind)) {
        Some(kind) => kind.0,
        None => OTHER,
    }
}
