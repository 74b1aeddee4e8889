//! Statements and the blocks that they are in.

use crate::group::Group::{Either, Ended, Only, Section, Start};
use crate::row::{ANY, Mention, Next, Pattern, Row, row};
use tokens::Kind::{
    Assert, Assume, Begin, Close, Colon, Comma, Do, Else, Fi, Goto, Id, If, Od, Return, Semicolon,
    Skip, Then, While,
};

/// What stands at the beginning of a block, or after a statement.
pub const BEGINNINGS: &[Row] = &[
    row!([last: Either(Fi, Od)] [], [], [";"] => "no `;` comes after `fi` and `od`"),
    row!([block: Section, last: Start] [], [], [";"] => "an empty statement is written `skip;`"),
    row!([block: Section, last: Start] [], [], [":"]
        => "a choice of guards is written `if (?) then assume(c); .. else assume(d); .. fi`"),
    row!([block: Section, last: Only(If)] [], [], [":"]
        => "a choice of guards is written `if (?) then assume(c); .. else assume(d); .. fi`"),
    row!([block: Section, last: Either(Then, Else)] [], [], ["begin"]
        => "a branch of an `if` has no `begin`: it ends with `else` or `fi`"),
    row!([block: Section, last: Only(Do)] [], [], ["begin"]
        => "the body of a `while` has no `begin`: it ends with `od`"),
    row!([block: Section, last: Start] [], [], ["begin"]
        => "`begin` comes only after the formals of a procedure"),
    row!([block: Section, last: Start] [], [], ["then"]
        => "`then` comes after the condition of an `if`: `if (c) then .. else .. fi`"),
    row!([block: Section, last: Start] [], [], ["do"] => "a loop is written `while (c) do .. od`"),
    row!([block: Section, last: Start] [], [], ["decl"]
        => "declarations stand first in the text, or first in a procedure, after `begin`"),
];

/// A block without a statement.
pub const EMPTY: &[Row] = &[
    row!([last: Only(Begin)] [], [], ["end"] => "a procedure has at least one statement, such as `skip;`"),
    row!([last: Only(Begin)] [], [], [] => "after `begin` comes `decl` or a statement, such as `skip;`"),
    row!([last: Only(Then)] [], [], ["fi"]
        => "each branch of an `if` has a statement, as in `then skip; else skip; fi`"),
    row!([last: Only(Then)] [], [], ["else"] => "a block has at least one statement, such as `skip;`"),
    row!([last: Only(Else)] [], [], ["fi"] => "a block has at least one statement, such as `skip;`"),
    row!([last: Only(Do)] [], [], ["od"] => "a block has at least one statement, such as `skip;`"),
    row!([last: Only(Then)] [], [], ["end", "od", "thread"]
        => "the ", Block, " goes on as `then .. else .. fi`, with a statement in each branch"),
    row!([last: Only(Else)] [], [], ["end", "od", "thread"]
        => "the ", Block, " goes on with a statement and `fi`"),
    row!([last: Only(Do)] [], [], ["end", "fi", "thread"]
        => "the ", Block, " goes on with a statement and `od`"),
    row!([last: Either(Then, Else)] [], [], []
        => "after `then`, `else` and `do` comes a statement, such as `skip;`"),
    row!([last: Only(Do)] [], [], [] => "after `then`, `else` and `do` comes a statement, such as `skip;`"),
];

/// The branches of an `if`.
pub const BRANCHES: &[Row] = &[
    // The first branch of an `if`.
    row!([last: Ended, block: Only(Then)] [], [], ["fi"]
        => "the ", Block, " has no `else`, which may be `else skip;`"),
    row!([last: Ended, block: Only(Then)] [], [], ["end", "od", "thread"]
        => "the ", Block, " has no `else` and no `fi`"),
    row!([last: Ended, block: Only(Then), next: Next::Ended] [], [], []
        => "the ", Block, " has no `else` and no `fi`"),
    row!([last: Ended, block: Only(Then)] [], [], []
        => "here comes a statement, or the `else` of the ", Block, ""),
    // The second branch.
    row!([last: Ended, block: Only(Else)] [], [], ["else"] => "the ", Block, " has its `else` already"),
    row!([last: Ended, block: Only(Else)] [], [], ["end", "od", "thread"] => "the ", Block, " has no `fi`"),
    row!([last: Ended, block: Only(Else), next: Next::Ended] [], [], [] => "the ", Block, " has no `fi`"),
    row!([last: Ended, block: Only(Else)] [], [], []
        => "here comes a statement, or the `fi` of the ", Block, ""),
];

/// The body of a `while`, and of a procedure.
pub const BODIES: &[Row] = &[
    // The body of a `while`.
    row!([last: Ended, block: Only(Do)] [], [], ["fi"]
        => "the ", Block, " ends with `od`, and no `if` is open in it"),
    row!([last: Ended, block: Only(Do)] [], [], ["else"]
        => "no `if` is open here, in the body of the ", Block, ""),
    row!([last: Ended, block: Only(Do)] [], [], ["end", "thread"] => "the ", Block, " has no `od`"),
    row!([last: Ended, block: Only(Do), next: Next::Ended] [], [], [] => "the ", Block, " has no `od`"),
    row!([last: Ended, block: Only(Do)] [], [], []
        => "here comes a statement, or the `od` of the ", Block, ""),
    // The body of a procedure.
    row!([last: Ended, block: Only(Begin)] [], [], ["fi"]
        => "no `if` is open here, which this `fi` would close"),
    row!([last: Ended, block: Only(Begin)] [], [], ["else"]
        => "no `if` is open here, which this `else` could belong to"),
    row!([last: Ended, block: Only(Begin)] [], [], ["od"]
        => "no `while` is open here, which this `od` would close"),
    row!([last: Ended, block: Only(Begin)] [], [], ["thread"] => "the ", Block, " has no `end`"),
    row!([last: Ended, block: Only(Begin), next: Next::Ended] [], [], [] => "the ", Block, " has no `end`"),
    row!([last: Ended, block: Only(Begin)] [], [], []
        => "here comes a statement, or the `end` of the ", Block, ""),
];

/// Labels, `skip`, `goto` and `return`.
pub const SIMPLE: &[Row] = &[
    row!([last: Only(Colon)] [], [], [] => "after a label comes a statement, such as `skip;`"),
    row!([last: Only(Skip), next: Next::Word] [], [], [] => "a `;` is missing at ", Behind, ", after `skip`"),
    row!([last: Only(Skip), next: Next::Ended] [], [], []
        => "a `;` is missing at ", Behind, ", after `skip`"),
    row!([last: Only(Skip)] [], [], [] => "after `skip` comes `;`"),
    row!([last: Only(Goto)] [], [], [] => "after `goto` comes a label"),
    row!([last: Only(Id), head: Only(Goto)] [], [], [","]
        => "a `goto` has one label: write `if (?) then goto A; else goto B; fi`"),
    row!([last: Only(Id), head: Only(Goto), next: Next::Word] [], [], []
        => "a `;` is missing at ", Behind, ", after the label"),
    row!([last: Only(Id), head: Only(Goto), next: Next::Ended] [], [], []
        => "a `;` is missing at ", Behind, ", after the label"),
    row!([last: Only(Id), head: Only(Goto)] [], [], [] => "after the label of a `goto` comes `;`"),
    row!([last: Only(Return)] [], [], ["?"]
        => "`return` takes an expression: draw a value first, as in `any := ?; return any;`"),
    row!([last: Only(Return), next: Next::Word] [], [], []
        => "a `;` is missing at ", Behind, ", after `return`"),
    row!([last: Only(Return), next: Next::Ended] [], [], []
        => "a `;` is missing at ", Behind, ", after `return`"),
    row!([last: Only(Return)] [], [], [] => "after `return` comes an expression or `;`"),
];

/// Conditions.
pub const CONDITIONS: &[Row] = &[
    row!([last: Either(If, While)] [], [], []
        => "a condition stands in parentheses, as in `if (x)` and `while (x)`"),
    row!([last: Either(Assert, Assume)] [], [], []
        => "a condition stands in parentheses, as in `assert(x);`"),
    row!([last: Only(Close), head: Either(If, While)] [], [], ["&", "|", "^", "=", "!"]
        => "the parentheses enclose the whole condition, as in `if ((a) & b)`"),
    row!([last: Only(Close), head: Either(Assert, Assume)] [], [], ["&", "|", "^", "=", "!"]
        => "the parentheses enclose the whole condition, as in `assert((a) & b);`"),
    row!([last: Only(Close), head: Only(If)] [], [], [] => "after the `)` of `if` comes `then`"),
    row!([last: Only(Close), head: Only(While)] [], [], [";"]
        => "an empty loop is written `while (c) do skip; od`"),
    row!([last: Only(Close), head: Only(While)] [], [], [] => "after the `)` of `while` comes `do`"),
    row!([last: Only(Close), head: Either(Assert, Assume), next: Next::Word] [], [], []
        => "a `;` is missing at ", Behind, ", after the statement"),
    row!([last: Only(Close), head: Either(Assert, Assume), next: Next::Ended] [], [], []
        => "a `;` is missing at ", Behind, ", after the statement"),
    row!([last: Only(Close), head: Either(Assert, Assume)] [], [], []
        => "after the `)` of `assert` and `assume` comes `;`"),
];

/// Targets.
pub const TARGETS: &[Row] = &[
    row!([last: Only(Comma), head: Start] [], [], [] => "after the `,` of targets comes another name"),
    row!([last: Only(Comma), head: Only(Colon)] [], [], [] => "after the `,` of targets comes another name"),
    row!([last: Only(Id), head: Start] [], [], ["=>", "!="]
        => "a condition stands in `assert(..)` or `assume(..)`"),
    row!([last: Only(Id), head: Either(Colon, Semicolon)] [], [], ["="]
        => "an assignment is written `x := e;`"),
    row!([last: Only(Id), head: Start] [], [], ["="] => "an assignment is written `x := e;`"),
    row!([last: Only(Id), head: Start] [], [], ["&=", "|=", "^="]
        => "an assignment is written `x := x & e;`"),
    row!([last: Only(Id), second: Only(Comma), head: Start] [], [], ["("]
        => "a call's value has one target, as in `x := f(e);`"),
    row!([last: Only(Id), second: Only(Comma), head: Start] [], [], [] => "after a target comes `,` or `:=`"),
    row!([last: Only(Id), head: Start] [], [], ["?", "!"]
        => "there are no channels: a flag and a variable take the place of one"),
    row!([last: Only(Id), head: Start] [], [], ["&", "|", "^"]
        => "a condition stands in `assert(..)` or `assume(..)`"),
    row!([last: Only(Id), head: Start] [], [], [";"] => "a call is written with parentheses: `p();`"),
    row!([last: Only(Id), head: Only(Colon)] [], [], [";"] => "a call is written with parentheses: `p();`"),
    row!([last: Only(Id), head: Only(Colon)] [], [], [":"] => "a statement has one label"),
    row!([last: Only(Id), head: Only(Colon)] [], [], []
        => "after the first name of a statement comes `:=`, `,` or `(`"),
    row!([last: Only(Id), head: Start] [], [], []
        => "after the first name of a statement comes `:=`, `,`, `(` or `:`"),
];

/// Calls.
pub const CALLS: &[Row] = &[
    row!([last: Only(Close), owner: Only(Id), head: Start] [], [], ["begin"]
        => "the ", Block, " is not closed before this procedure"),
    row!([last: Only(Close), owner: Only(Id), head: Start] [], [], ["then"]
        => "`then` comes after the condition of an `if`: `if (c) then .. else .. fi`"),
    row!([last: Only(Close), owner: Only(Id), head: Start] [], [], ["do"]
        => "a loop is written `while (c) do .. od`"),
    row!([last: Only(Close), owner: Only(Id), head: Start] [], [], [":=", "="]
        => "a target is a name, and has no parentheses"),
    row!([last: Only(Close), owner: Only(Id), head: Start] [], [], ["&", "|", "^", "!"]
        => "a call is a statement of its own, and no part of an expression"),
    row!([last: Only(Close), owner: Only(Id), next: Next::Word] [], [], []
        => "a `;` is missing at ", Behind, ", after the call"),
    row!([last: Only(Close), owner: Only(Id), next: Next::Ended] [], [], []
        => "a `;` is missing at ", Behind, ", after the call"),
    row!([last: Only(Close), owner: Only(Id)] [], [], ["&", "|", "^", "=", "!", ","]
        => "a call is a right side of its own: `v := f(e);` comes first, and then `v` is used"),
    row!([last: Only(Close), owner: Only(Id)] [], [], [] => "after the `)` of a call comes `;`"),
];
