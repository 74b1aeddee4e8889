//! Words of other languages, which are names here, and how what they mean is written.

use crate::group::Group::{Either, Only, Operand, Operator};
use crate::row::{ANY, Mention, Next, Pattern, Row, row};
use tokens::Kind::{Assign, Close, Id, Open, Return};

/// Operators that are words, after an operand of an expression.
pub const NAMED_OPERATORS: &[Row] = &[
    row!([last: Only(Close), owner: Only(Id), head: Only(Assign)] [], [], ["and", "or", "xor", "implies"]
        => "a call is a right side of its own: `v := f(e);` comes first, and then `v` is used"),
    row!([last: Operand, head: Either(Open, Assign)] [], [], ["and", "AND", "And"]
        => "conjunction is written `&`"),
    row!([last: Operand, head: Either(Open, Assign)] [], [], ["or", "OR", "Or"]
        => "disjunction is written `|`"),
    row!([last: Operand, head: Either(Open, Assign)] [], [], ["xor", "XOR", "Xor"]
        => "exclusive or is written `^`"),
    row!([last: Operand, head: Either(Open, Assign)] [], [], ["implies"] => "implication is written `=>`"),
    row!([last: Operand, head: Either(Open, Assign)] [], [], ["is", "iff", "eq"]
        => "equality is written `=`"),
    row!([last: Operand, head: Only(Return)] [], [], ["and", "AND", "And"] => "conjunction is written `&`"),
    row!([last: Operand, head: Only(Return)] [], [], ["or", "OR", "Or"] => "disjunction is written `|`"),
    row!([last: Operand, head: Only(Return)] [], [], ["xor", "XOR", "Xor"] => "exclusive or is written `^`"),
    row!([next: Next::Word] ["not", "NOT", "Not"], [], [] => "negation is written `!`"),
    row!([last: Only(Id), second: Operator] ["not", "NOT", "Not"], [], ["("] => "negation is written `!`"),
    row!([last: Only(Id), head: Only(Open)] ["not", "NOT", "Not"], [], ["("] => "negation is written `!`"),
];

/// Keywords in capitals.
pub const CAPITALS: &[Row] = &[
    row!([] [], [], ["Decl", "DECL", "Begin", "BEGIN", "End", "END", "Thread", "THREAD", "Skip", "SKIP", "If",
        "IF", "Then", "THEN", "Else", "ELSE", "Fi", "FI", "While", "WHILE", "Do", "DO", "Od", "OD", "Assert",
        "ASSERT", "Assume", "ASSUME", "Goto", "GOTO", "Return", "RETURN"]
        => "keywords are written in small letters"),
    row!([next: Next::Word] ["Decl", "DECL", "Begin", "BEGIN", "End", "END", "Thread", "THREAD", "Goto",
        "GOTO", "Return", "RETURN", "Then", "THEN", "Else", "ELSE", "Fi", "FI", "Do", "DO", "Od",
        "OD"], [], []
        => "keywords are written in small letters"),
    row!([] ["Skip", "SKIP", "Return", "RETURN", "End", "END", "Fi", "FI", "Od", "OD"], [], [";"]
        => "keywords are written in small letters"),
    row!([last: Only(Close)] [], ["If", "IF", "While", "WHILE"], ["then", "do"]
        => "keywords are written in small letters"),
];

/// Words of declarations.
pub const TYPES: &[Row] = &[
    row!([next: Next::Word] ["bool", "bit", "int", "byte", "char", "boolean", "unsigned", "void", "var",
        "let", "const", "static", "global", "local"], [], []
        => "variables are declared by `decl x, y;`; formals and procedures have no type"),
    row!([next: Next::Word] ["proc", "procedure", "function", "proctype", "active", "process", "def", "fn", "fun", "init"], [], []
        => "a procedure is written `p() begin .. end`, and a thread that runs it `thread p;`"),
];

/// Words of choices and loops.
pub const CHOICES: &[Row] = &[
    row!([next: Next::Word] ["elif", "elsif", "elseif"], [], []
        => "a further choice is written `else if (c) then .. else .. fi`, with its own `fi`"),
    row!([last: Only(Close)] [], ["elif", "elsif", "elseif"], ["then"]
        => "a further choice is written `else if (c) then .. else .. fi`, with its own `fi`"),
    row!([next: Next::Word] ["endif"], [], [] => "an `if` ends with `fi`"),
    row!([] ["endif"], [], [";"] => "an `if` ends with `fi`"),
    row!([next: Next::Word] ["done", "endwhile"], [], [] => "a `while` ends with `od`"),
    row!([] ["done", "endwhile"], [], [";"] => "a `while` ends with `od`"),
    row!([] [], ["for", "foreach"], [";", ":="] => "a loop is written `while (c) do .. od`"),
    row!([next: Next::Word] ["for", "foreach", "repeat", "until", "loop"], [], []
        => "a loop is written `while (c) do .. od`"),
    row!([] ["break"], [], [";"] => "a loop is left by `goto L;`, where `L` labels a statement after it"),
    row!([] ["continue"], [], [";"]
        => "the rest of a loop's body is left out by `goto L;`, where `L` labels a last `skip;` in it"),
];

/// Words of other statements.
pub const ACTIONS: &[Row] = &[
    row!([] ["atomic", "d_step"], [], ["begin"]
        => "there is no `atomic`; one assignment is one step: `x, y := e, f;`"),
    row!([next: Next::Word] ["atomic", "d_step"], [], []
        => "there is no `atomic`; one assignment is one step: `x, y := e, f;`"),
    row!([next: Next::Word] ["call"], [], [] => "a call is written `p(e);`, or `x := p(e);` for its value"),
    row!([next: Next::Word] ["run", "start", "fork", "spawn"], [], []
        => "threads are started by lines `thread p;` at the end of the text"),
    row!([next: Next::Word] ["await", "wait", "when"], [], [] => "a thread waits by `assume(c);`"),
    row!([next: Next::Word] ["dead"], [], [] => "a variable gets any value by `x := ?;`"),
    row!([] ["pass", "nop", "null"], [], [";"] => "an empty statement is written `skip;`"),
    row!([] ["abort", "fail", "error"], [], [";"] => "a failure is written `assert(0);`"),
];
