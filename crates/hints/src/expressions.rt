//! Expressions, and the lists that they are in.

use crate::group::Group::{Either, Nothing, Only, Operand, Operator, Test};
use crate::row::{ANY, Mention, Next, Pattern, Row, row};
use tokens::Kind::{Any, Assign, Comma, Id, Open, Return};

/// After an operator, a `:=` or a `(`.
pub const BEGUN: &[Row] = &[
    row!([last: Operator] [], [], ["?"]
        => "`?` is a whole right side: draw a value first, as in `any := ?; x := any & y;`"),
    row!([last: Operator] [], [], [] => "after an operator comes a name, `0`, `1`, `!` or `(`"),
    row!([last: Only(Assign)] [], [], ["="] => "an assignment is written `x := e;`"),
    row!([last: Only(Assign)] [], [], [] => "after `:=` comes an expression, `?` or a call"),
    // After `(`.
    row!([last: Only(Open), owner: Only(Id)] [], [], ["?"]
        => "`?` is no argument: draw a value first, as in `any := ?; p(any);`"),
    row!([last: Only(Open), owner: Only(Id)] [], [], []
        => "after the `(` of a call comes an argument or `)`"),
    row!([last: Only(Open), owner: Test] [], [], [")"]
        => "a condition is an expression, or `?` for any value"),
    row!([last: Only(Open), owner: Test] [], [], []
        => "after the `(` of a condition comes an expression or `?`"),
    row!([last: Only(Open)] [], [], ["?"]
        => "`?` is a whole right side: draw a value first, as in `any := ?; x := any & y;`"),
    row!([last: Only(Open)] [], [], [] => "after `(` comes an expression"),
];

/// After a `,` or a `?`.
pub const LISTS: &[Row] = &[
    // After `,`.
    row!([last: Only(Comma), head: Only(Open)] [], [], [")"] => "no `,` comes before `)`"),
    row!([last: Only(Comma), head: Only(Open)] [], [], ["?"]
        => "`?` is no argument: draw a value first, as in `any := ?; p(any);`"),
    row!([last: Only(Comma), head: Only(Open)] [], [], []
        => "after the `,` of a call comes another argument"),
    row!([last: Only(Comma), head: Only(Assign)] [], [], [";"] => "no `,` comes before `;`"),
    row!([last: Only(Comma), head: Only(Assign)] [], [], [] => "after the `,` of right sides comes another"),
    // After `?`.
    row!([last: Only(Any), head: Only(Assign), next: Next::Word] [], [], []
        => "a `;` is missing at ", Behind, ", after the statement"),
    row!([last: Only(Any), head: Only(Assign), next: Next::Ended] [], [], []
        => "a `;` is missing at ", Behind, ", after the statement"),
    row!([last: Only(Any), head: Only(Assign)] [], [], []
        => "after `?` comes `,` or `;`: it is a whole right side"),
    row!([last: Only(Any), head: Only(Open)] [], [], [] => "after `?` comes `)`: it is a whole condition"),
];

/// After an operand.
pub const OPERANDS: &[Row] = &[
    row!([last: Operand] [], [], ["?"] => "a choice `c ? a : b` is written `(c & a) | (!c & b)`"),
    row!([last: Only(Id), second: Only(Assign)] [], [], ["("]
        => "a call's value has one target, as in `x := f(e);`"),
    row!([last: Only(Id), head: Only(Return)] [], [], ["("]
        => "a call is a statement of its own: write `v := f(e); return v;`"),
    row!([last: Only(Id), head: Either(Assign, Open)] [], [], ["("]
        => "a call is a statement of its own: `v := f(e);` comes first, and then `v` is used"),
    row!([last: Only(Id), second: Only(Comma), head: Only(Assign)] [], [], [":="]
        => "all targets come first, as in `x, y := e, f;`"),
    row!([last: Only(Id), head: Only(Assign)] [], [], [":="]
        => "a statement has one `:=`: write `y := e; x := y;`"),
    row!([last: Operand, head: Only(Open)] [], [], [":="]
        => "equality is written `=`, and an assignment is a statement of its own"),
    row!([last: Operand, head: Only(Open), owner: Test] [], [], [","]
        => "a condition is one expression: `,` is written `&` or `|`"),
    row!([last: Operand, head: Only(Open)] [], [], [","]
        => "parentheses enclose one expression, without `,`"),
    row!([last: Operand, head: Only(Open)] [], [], [";", "then", "do", "else", "fi", "od", "end", "begin",
        "thread", "skip", "if", "while", "assert", "assume", "goto", "return", "decl"]
        => "the ", Paren, " is not closed"),
    row!([last: Operand, head: Only(Open), next: Next::Ended] [], [], [] => "the ", Paren, " is not closed"),
    row!([last: Operand, head: Only(Open), owner: Only(Id)] [], [], []
        => "after an argument comes an operator, `,` or `)`"),
    row!([last: Operand, head: Only(Open)] [], [], []
        => "after an operand in parentheses comes an operator or `)`"),
    row!([last: Operand, head: Either(Assign, Return)] [], [], [")"]
        => "no `(` is open here, which this `)` would close"),
    row!([last: Operand, head: Either(Assign, Return), next: Next::Word] [], [], []
        => "a `;` is missing at ", Behind, ", after the statement"),
    row!([last: Operand, head: Either(Assign, Return), next: Next::Ended] [], [], []
        => "a `;` is missing at ", Behind, ", after the statement"),
    row!([last: Operand, head: Only(Return)] [], [], [","] => "a procedure returns one value"),
    row!([last: Operand, head: Only(Return)] [], [], []
        => "after the value of a `return` comes an operator or `;`"),
    row!([last: Operand, head: Only(Assign)] [], [], [] => "after an operand comes an operator, `,` or `;`"),
];
