//! What comes outside of bodies: declarations, procedures and thread lines.

use crate::group::Group::{Either, Nothing, Only};
use crate::row::{ANY, Mention, Next, Pattern, Row, row};
use tokens::Kind::{Begin, Close, Comma, Decl, End, Id, Open, Semicolon, Thread};

/// The beginning of a text, and declarations.
pub const DECLARATIONS: &[Row] = &[
    // The beginning of a text.
    row!([last: Nothing, next: Next::Ended] [], [], []
        => "a program has a procedure and a thread, as in `p() begin skip; end thread p;`"),
    row!([last: Nothing] [], [], ["thread"]
        => "a procedure comes before the first `thread` line, as in `p() begin skip; end`"),
    row!([last: Nothing] [], [], [] => "a program begins with `decl` or a procedure"),
    // Declarations.
    row!([last: Only(Decl)] [], [], [] => "after `decl` comes a name, which is no keyword"),
    row!([last: Only(Comma), head: Only(Decl)] [], [], []
        => "after the `,` of a declaration comes another name"),
    row!([last: Only(Id), head: Only(Decl)] [], [], [":=", "="]
        => "variables start at 0: write `decl x;`, and assign another value in a statement"),
    row!([last: Only(Id), head: Only(Decl)] [], [], [":"] => "a variable has no type: write `decl x;`"),
    row!([last: Only(Id), head: Only(Decl), next: Next::Word] [], [], []
        => "a `;` or `,` is missing at ", Behind, ", after the declared name"),
    row!([last: Only(Id), head: Only(Decl), next: Next::Ended] [], [], []
        => "a `;` is missing at ", Behind, ", after the declared name"),
    row!([last: Only(Id), head: Only(Decl)] [], [], [] => "after a declared name comes `,` or `;`"),
    row!([last: Only(Semicolon), head: Only(Decl), block: Nothing] [], [], ["thread"]
        => "a procedure comes before the first `thread` line, as in `p() begin skip; end`"),
    row!([last: Only(Semicolon), head: Only(Decl), block: Nothing] [], [], [";"]
        => "a declaration ends with one `;`"),
    row!([last: Only(Semicolon), head: Only(Decl), block: Nothing, next: Next::Word] [], [], []
        => "a statement stands in a procedure, as in `p() begin skip; end`"),
    row!([last: Only(Semicolon), head: Only(Decl), block: Nothing] [], [], []
        => "after a declaration comes another or a procedure, as in `p() begin skip; end`"),
    row!([last: Only(Semicolon), head: Only(Decl), block: Only(Begin)] [], [], ["end"]
        => "a procedure has at least one statement, such as `skip;`"),
];

/// Thread lines.
pub const THREADS: &[Row] = &[
    row!([last: Only(Thread)] [], [], [] => "after `thread` comes the name of a procedure"),
    row!([last: Only(Id), head: Only(Thread)] [], [], ["("]
        => "a thread line has no parentheses: write `thread p;` for a procedure without formals"),
    row!([last: Only(Id), head: Only(Thread)] [], [], [","]
        => "each thread has a line of its own, as in `thread p; thread q;`"),
    row!([last: Only(Id), head: Only(Thread), next: Next::Word] [], [], []
        => "a `;` is missing at ", Behind, ", after the thread's procedure"),
    row!([last: Only(Id), head: Only(Thread), next: Next::Ended] [], [], []
        => "a `;` is missing at ", Behind, ", after the thread's procedure"),
    row!([last: Only(Id), head: Only(Thread)] [], [], [] => "after the procedure of a thread comes `;`"),
    row!([last: Only(Semicolon), head: Only(Thread)] [], [], ["end"]
        => "no `begin` is open here, which this `end` would close"),
    row!([last: Only(Semicolon), head: Only(Thread)] [], [], [";"] => "a thread line ends with one `;`"),
    row!([last: Only(Semicolon), head: Only(Thread)] [], [], []
        => "after a `thread` line come only `thread` lines: declarations and procedures stand before the first"),
];

/// Procedures up to their `begin`.
pub const HEADS: &[Row] = &[
    // Formals.
    row!([last: Only(Open), block: Nothing] [], [], []
        => "after the `(` of a procedure come the names of its formals, or `)`"),
    row!([last: Only(Comma), head: Only(Open), block: Nothing] [], [], [")"] => "no `,` comes before `)`"),
    row!([last: Only(Comma), head: Only(Open), block: Nothing] [], [], []
        => "after the `,` of formals comes another name"),
    row!([last: Only(Id), head: Only(Open), block: Nothing] [], [], [":"]
        => "a formal has no type: write `p(x)`"),
    row!([last: Only(Id), head: Only(Open), block: Nothing, next: Next::Word] [], [], []
        => "a formal is one name, and `,` comes between formals"),
    row!([last: Only(Id), head: Only(Open), block: Nothing] [], [], [] => "after a formal comes `,` or `)`"),
    // The head of a procedure.
    row!([last: Only(Close), block: Nothing] [], [], [";"]
        => "a procedure has a body, and a call stands in one: after the `)` comes `begin`"),
    row!([last: Only(Close), block: Nothing] [], [], ["decl"]
        => "the declarations of a procedure come after its `begin`"),
    row!([last: Only(Close), block: Nothing] [], [], [] => "after the formals of a procedure comes `begin`"),
    row!([last: Only(Id), block: Nothing] [], [], [":=", "=", ",", ":"]
        => "a statement stands in a procedure, as in `p() begin x := 1; end`"),
    row!([last: Only(Id), block: Nothing] [], [], []
        => "after the name of a procedure comes `(`, as in `p() begin .. end`"),
];

/// What comes after a procedure.
pub const ENDS: &[Row] = &[
    row!([last: Only(End)] [], [], [";"] => "no `;` comes after `end`"),
    row!([last: Only(End)] [], [], ["end"] => "no `begin` is open here, which this `end` would close"),
    row!([last: Only(End)] [], [], ["fi"] => "no `if` is open here, which this `fi` would close"),
    row!([last: Only(End)] [], [], ["od"] => "no `while` is open here, which this `od` would close"),
    row!([last: Only(End)] [], [], ["decl"]
        => "declarations stand before the procedures, or first in one, after `begin`"),
    row!([last: Only(End)] [], [], ["skip", "if", "while", "assert", "assume", "goto", "return"]
        => "a statement stands in a procedure: the `end` before it closed one"),
    row!([last: Only(End), next: Next::Ended] [], [], []
        => "a program ends with a line for each thread, such as `thread p;`"),
    row!([last: Only(End)] [], [], [] => "after `end` comes a procedure or `thread`"),
];
