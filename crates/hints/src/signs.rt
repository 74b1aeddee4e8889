//! Signs and numbers of other languages, and how they are written here.

use crate::group::Group::{Either, Nothing, Only, Operand};
use crate::row::{ANY, Mention, Next, Pattern, Row, row};
use tokens::Kind::{And, Assert, Assign, Close, Differs, Equal, Id, If, Open, Or, Return, While};

/// Numbers and comments.
pub const COMMENTS: &[Row] = &[
    row!([next: Next::Number] [], [], []
        => "the constants are `0` and `1`, and a name begins with a letter or `_`"),
    row!([last: Only(Id)] [], [], ["--"] => "there is no arithmetic: a variable is one bit"),
    // Comments.
    row!([] [], [], ["/*", "#", "--"] => "a comment begins with `//` and ends with its line"),
];

/// Operators that are signs.
pub const OPERATORS: &[Row] = &[
    row!([last: Only(Equal)] [], [], ["=>"] => "implication is written `=>`, with one `=`"),
    row!([last: Only(Equal)] [], [], ["="] => "equality is written `=`"),
    row!([last: Only(Differs)] [], [], ["="] => "difference is written `!=`"),
    row!([last: Only(And)] [], [], ["&"] => "conjunction is written `&`"),
    row!([last: Only(Or)] [], [], ["|"] => "disjunction is written `|`"),
    row!([] [], [], ["<=>", "<->"] => "equality is written `=`"),
    row!([] [], [], ["/=", "<>", "~="] => "difference is written `!=`"),
    row!([] [], [], ["/\\"] => "conjunction is written `&`"),
    row!([] [], [], ["\\/"] => "disjunction is written `|`"),
    row!([] [], [], ["~"] => "negation is written `!`"),
    row!([head: Either(Open, Assign)] [], [], ["->"] => "implication is written `=>`"),
    row!([head: Only(Return)] [], [], ["->"] => "implication is written `=>`"),
    row!([] [], [], ["->"] => "a guard `c -> ..` is written `assume(c); ..`"),
    row!([last: Operand] [], [], ["*"] => "there is no arithmetic: a variable is one bit"),
    row!([] [], [], ["*"] => "any value is written `?`"),
    row!([] [], [], ["+", "-", "/", "%"] => "there is no arithmetic: a variable is one bit"),
    row!([] [], [], ["<", ">"]
        => "a variable is one bit: `a < b` is written `!a & b`, and `a > b` is written `a & !b`"),
];

/// Blocks, arrays, texts and names.
pub const BRACKETS: &[Row] = &[
    // Blocks and arrays.
    row!([last: Only(Close), block: Nothing] [], [], ["{"]
        => "the body of a procedure is written `begin .. end`"),
    row!([last: Only(Close), head: Only(If)] [], [], ["{"]
        => "a choice is written `if (c) then .. else .. fi`"),
    row!([last: Only(Close), head: Only(While)] [], [], ["{"] => "a loop is written `while (c) do .. od`"),
    row!([] ["atomic", "d_step"], [], ["{"]
        => "there is no `atomic`; one assignment is one step: `x, y := e, f;`"),
    row!([] [], [], ["{", "}"] => "a block is written `begin .. end`, `then .. else .. fi` or `do .. od`"),
    row!([] ["active"], [], ["["] => "a thread has a line of its own, `thread p;`, once for each thread"),
    row!([] [], [], ["[", "]"] => "there are no arrays: each element is a variable"),
    // Texts and names.
    row!([owner: Only(Assert)] [], [], ["\""] => "`assert` takes a condition, and no text"),
    row!([] [], [], ["\"", "'"] => "there are no texts: a variable is one bit"),
    row!([] [], [], ["."] => "there are no fields: each of them is a variable"),
    row!([next: Next::Strange] [], [], []
        => "a text has words, blanks, comments and the signs `, ; : := ( ) ? => | ^ & = != !`"),
];
