//! The trees of programs, with the offset of each name and statement.
ghost use Rattle.std.specs.Prelude.{◌≡◌};
ghost use Rattle.language.specs.Value.{operate};
ghost use Rattle.trees.specs.Trees.{operator_of};

use std::alloc::Allocator;

/// A program: its globals, its procedures and its thread lines, each in the order of the text.
#[derive(Drop)]
pub struct Program<A: Allocator> {
    /// The names of its globals; several lists of them are one, in order.
    pub globals: Vec<Name<A>, A>,
    /// Its procedures, in the order of the text.
    pub procs: Vec<Proc<A>, A>,
    /// Its thread lines, in the order of the text.
    pub threads: Vec<Thread<A>, A>,
}

/// A thread line.
#[derive(Drop)]
pub struct Thread<A: Allocator> {
    /// The offset of the word `thread`.
    pub at: u32,
    /// The name of the procedure that the thread runs.
    pub name: Name<A>,
}

/// A name.
#[derive(Drop)]
pub struct Name<A: Allocator> {
    /// Its letters, digits and underscores.
    pub text: String<A>,
    /// The offset of its first byte.
    pub at: u32,
}

/// A procedure. Several lists of locals are one, in order.
#[derive(Drop)]
pub struct Proc<A: Allocator> {
    /// Its name.
    pub name: Name<A>,
    /// The names of its formals, in order.
    pub formals: Vec<Name<A>, A>,
    /// The names of its locals, in order.
    pub locals: Vec<Name<A>, A>,
    /// Its statements.
    pub body: Vec<Stmt<A>, A>,
}

/// A statement.
#[cycle(tree)]
#[derive(Drop)]
pub struct Stmt<A: Allocator> {
    /// Its label, if it has one.
    pub label: Option<Name<A>>,
    /// The offset of its label, if it has one, and otherwise of its first byte.
    pub at: u32,
    /// What it does.
    pub core: Core<A>,
}

/// What a statement does.
#[cycle(tree)]
#[derive(Drop)]
pub enum Core<A: Allocator> {
    /// `skip;`
    Skip,
    /// `x, y := r, s;`: the targets, and the right sides.
    Assign(Vec<Name<A>, A>, Vec<Rhs<A>, A>),
    /// `if (r) then .. else .. fi`
    If(Rhs<A>, Vec<Stmt<A>, A>, Vec<Stmt<A>, A>),
    /// `while (r) do .. od`
    While(Rhs<A>, Vec<Stmt<A>, A>),
    /// `assert(r);`
    Assert(Rhs<A>),
    /// `assume(r);`
    Assume(Rhs<A>),
    /// `goto L;`
    Goto(Name<A>),
    /// `return;`
    Return,
    /// `p(e, f);`
    Call(Name<A>, Vec<Expr<A>, A>),
    /// `x := p(e, f);`: the variable that gets the value, the procedure, and the arguments.
    CallTo(Name<A>, Name<A>, Vec<Expr<A>, A>),
    /// `return e;`
    Give(Expr<A>),
}

/// A right side.
#[derive(Drop)]
pub enum Rhs<A: Allocator> {
    /// `?`, which has both values.
    Any,
    /// An expression, which has one.
    Value(Expr<A>),
}

/// An expression. Parentheses of the text leave no mark in it.
#[derive(Drop)]
pub enum Expr<A: Allocator> {
    Const(bool),
    Var(Name<A>),
    Not(Box<Expr<A>, A>),
    Two(Op, Box<Expr<A>, A>, Box<Expr<A>, A>),
}

/// A two-sided operator.
#[derive(Clone, Copy)]
pub enum Op {
    /// `=>`
    Implies,
    /// `|`
    Or,
    /// `^`
    Xor,
    /// `&`
    And,
    /// `=`
    Equal,
    /// `!=`
    Differs,
}

impl Op {
    /// The value of the operator for two values.
    pub fn apply(self, left: bool, right: bool) -> bool
        ensures { result ≡ operate (operator_of self) left right }
    {
        match self {
            Op::Implies => !left || right,
            Op::Or => left || right,
            Op::Xor => left != right,
            Op::And => left && right,
            Op::Equal => left == right,
            Op::Differs => left != right,
        }
    }
}
