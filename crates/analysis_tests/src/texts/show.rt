//! Tokens and trees in plain words, with their offsets.

use crate::texts::page::Page;
use std::alloc::Allocator;
use tokens::Token;
use trees::{Core, Expr, Name, Op, Proc, Program, Rhs, Stmt, Thread};

/// The kind, the offset and the text of each token.
pub fn show_tokens<A: Allocator>(page: &mut Page<A>, tokens: &[Token<'_>]) {
    for token in tokens {
        page.put_named(&token.kind);
        page.put(" ");
        page.put_shown(&token.at);
        page.put(" ");
        page.put(token.text);
        page.put(", ");
    }
}

// A name with its offset, after a text.
fn show_name<A: Allocator>(page: &mut Page<A>, before: &str, name: &Name<A>) {
    page.put(before);
    page.put(name.text.as_str());
    page.put("@");
    page.put_shown(&name.at);
}

fn show_names<A: Allocator>(page: &mut Page<A>, names: &[Name<A>]) {
    for name in names {
        show_name(page, " ", name);
    }
}

fn sign(op: Op) -> &'static str {
    match op {
        Op::Implies => "=>",
        Op::Or => "|",
        Op::Xor => "^",
        Op::And => "&",
        Op::Equal => "=",
        Op::Differs => "!=",
    }
}

// An expression with parentheses round each two-sided operation.
fn show_expr<A: Allocator>(page: &mut Page<A>, expr: &Expr<A>) {
    match expr {
        Expr::Const(true) => page.put("1"),
        Expr::Const(false) => page.put("0"),
        Expr::Var(name) => page.put(name.text.as_str()),
        Expr::Not(inner) => {
            page.put("!");
            show_expr(page, inner)
        }
        Expr::Two(op, left, right) => {
            page.put("(");
            show_expr(page, left);
            page.put(sign(*op));
            show_expr(page, right);
            page.put(")");
        }
    }
}

fn show_side<A: Allocator>(page: &mut Page<A>, side: &Rhs<A>) {
    page.put(" ");
    match side {
        Rhs::Any => page.put("?"),
        Rhs::Value(value) => show_expr(page, value),
    }
}

fn show_assignment<A: Allocator>(page: &mut Page<A>, targets: &[Name<A>], sides: &[Rhs<A>]) {
    page.put("set");
    show_names(page, targets);
    page.put(" :=");
    for side in sides {
        show_side(page, side);
    }
}

fn show_call<A: Allocator>(page: &mut Page<A>, name: &Name<A>, arguments: &[Expr<A>]) {
    show_name(page, "call ", name);
    for argument in arguments {
        page.put(" ");
        show_expr(page, argument);
    }
}

fn show_call_for<A: Allocator>(
    page: &mut Page<A>,
    target: &Name<A>,
    name: &Name<A>,
    arguments: &[Expr<A>],
) {
    show_name(page, "set ", target);
    page.put(" := ");
    show_call(page, name, arguments);
}

fn show_give<A: Allocator>(page: &mut Page<A>, value: &Expr<A>) {
    page.put("return ");
    show_expr(page, value);
}

// A right side between two texts.
fn show_test<A: Allocator>(page: &mut Page<A>, before: &str, side: &Rhs<A>, behind: &str) {
    page.put(before);
    show_side(page, side);
    page.put(behind);
}

// The label of a statement, if it has one, and its offset.
fn show_place<A: Allocator>(page: &mut Page<A>, label: &Option<Name<A>>, at: u32) {
    page.put("; ");
    if let Some(label) = label {
        show_name(page, "", label);
        page.put(": ");
    }
    page.put_shown(&at);
    page.put(" ");
}

// A statement that holds no others.
fn show_simple<A: Allocator>(page: &mut Page<A>, core: &Core<A>) {
    match core {
        Core::Assign(targets, sides) => show_assignment(page, targets, sides),
        Core::Assert(side) => show_test(page, "assert", side, ""),
        Core::Assume(side) => show_test(page, "assume", side, ""),
        Core::Goto(label) => show_name(page, "goto ", label),
        Core::Call(name, arguments) => show_call(page, name, arguments),
        Core::Return => page.put("return"),
        Core::Give(value) => show_give(page, value),
        Core::CallTo(target, name, arguments) => show_call_for(page, target, name, arguments),
        _ => page.put("skip"),
    }
}

/// Statements, each after `; ` and its offset.
pub fn show_stmts<A: Allocator>(page: &mut Page<A>, stmts: &[Stmt<A>]) {
    for stmt in stmts {
        show_place(page, &stmt.label, stmt.at);
        match &stmt.core {
            Core::If(side, yes, no) => {
                show_test(page, "if", side, " {");
                show_stmts(page, yes);
                page.put(" } {");
                show_stmts(page, no);
                page.put(" }");
            }
            Core::While(side, body) => {
                show_test(page, "while", side, " {");
                show_stmts(page, body);
                page.put(" }");
            }
            core => show_simple(page, core),
        }
    }
}

// A line for each procedure.
fn show_procs<A: Allocator>(page: &mut Page<A>, procs: &[Proc<A>]) {
    for proc in procs {
        show_name(page, "\nproc ", &proc.name);
        page.put(" (");
        show_names(page, &proc.formals);
        page.put(" ) decl");
        show_names(page, &proc.locals);
        show_stmts(page, &proc.body);
    }
}

// A line for each thread line.
fn show_threads<A: Allocator>(page: &mut Page<A>, threads: &[Thread<A>]) {
    for thread in threads {
        page.put("\nthread ");
        page.put_shown(&thread.at);
        show_name(page, " ", &thread.name);
    }
}

/// A whole program: a line of globals, one for each procedure, and one for each thread line.
pub fn show_program<A: Allocator>(page: &mut Page<A>, program: &Program<A>) {
    page.put("decl");
    show_names(page, &program.globals);
    show_procs(page, &program.procs);
    show_threads(page, &program.threads);
}

/// The statements of each procedure.
pub fn show_bodies<A: Allocator>(page: &mut Page<A>, procs: &[Proc<A>]) {
    for proc in procs {
        show_stmts(page, &proc.body);
    }
}
