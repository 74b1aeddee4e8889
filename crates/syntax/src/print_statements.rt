//! Printing statements and blocks.

ghost use Rattle.std.specs.Prelude.{◌≡◌, ◌≤◌, ◌+◌, ◌^◌, ◌++◌, IfErr, IfOk, option_map};
ghost use Rattle.std.specs.String.{string_bytes};
ghost use Rattle.tokens.specs.Parts.{text_of};
ghost use Rattle.language.specs.Tree.{assign, call, call_for};
ghost use Rattle.trees.specs.Trees.{name_of, names_of, exprs_of, rhss_of, simple};
ghost use Rattle.trees.specs.Trees.{deed_of, block_of};
ghost use Rattle.grammar.specs.Printed.{Prints, label_parts, margin, block_parts};
ghost use Rattle.syntax.specs.PrintedDeed.{head_parts, arms_parts};

use crate::show::{Show, print_between, print_list, print_list_between};
use std::alloc::{AllocError, Allocator};
use trees::{Core, Expr, Name, Rhs, Stmt};

/// The level below. No line that fits into memory is indented so far that its level fits no number.
fn below(level: usize) -> Result<usize, AllocError>
    ensures next { IfOk result (λ next. next ≡ level + 1) }
    ensures none { IfErr result (λ _. 2 ^ 64 ≤ level + 1) }
{
    level.checked_add(1).ok_or(AllocError)
}

/// Prints two spaces for each level.
pub(crate) fn print_margin<A: Allocator>(
    out: &mut String<A>,
    level: usize,
) -> Result<(), AllocError>
    ensures { Prints result out.old out.new (margin level) }
{
    for _ in 0..level {
        out.push_str("  ")?;
    }
    Ok(())
}

/// Prints a text after the margin of this level.
fn print_line<A: Allocator>(out: &mut String<A>, level: usize, text: &str) -> Result<(), AllocError>
    ensures { IfOk result
        (λ _. string_bytes out.new ≡ string_bytes out.old ++ (text_of (margin level) ++ text.now)) }
{
    print_margin(out, level)?;
    out.push_str(text)
}

/// Prints a label, if there is one.
fn print_label<N: Allocator, A: Allocator>(
    out: &mut String<A>,
    label: &Option<Name<N>>,
) -> Result<(), AllocError>
    ensures { Prints result out.old out.new (label_parts (option_map name_of label.now)) }
{
    let Some(name) = label else {
        return Ok(());
    };
    name.print(out)?;
    out.push_str(": ")
}

/// Prints an assignment, after its margin and its label.
fn print_assignment<N: Allocator, A: Allocator>(
    out: &mut String<A>,
    targets: &[Name<N>],
    sides: &[Rhs<N>],
) -> Result<(), AllocError>
    ensures { Prints result out.old out.new
        (head_parts (simple (assign (names_of targets.now) (rhss_of sides.now)))) }
{
    print_list(out, targets)?;
    print_list_between(out, " := ", sides, ";\n")
}

/// Prints a call, after its margin and its label.
fn print_call<N: Allocator, A: Allocator>(
    out: &mut String<A>,
    name: &Name<N>,
    arguments: &[Expr<N>],
) -> Result<(), AllocError>
    ensures { Prints result out.old out.new
        (head_parts (simple (call (name_of name.now) (exprs_of arguments.now)))) }
{
    name.print(out)?;
    print_list_between(out, "(", arguments, ");\n")
}

/// Prints a call for a value, after its margin and its label.
fn print_asking<N: Allocator, A: Allocator>(
    out: &mut String<A>,
    target: &Name<N>,
    name: &Name<N>,
    arguments: &[Expr<N>],
) -> Result<(), AllocError>
    ensures { Prints result out.old out.new (head_parts
        (simple (call_for (name_of target.now) (name_of name.now) (exprs_of arguments.now)))) }
{
    target.print(out)?;
    out.push_str(" := ")?;
    print_call(out, name, arguments)
}

/// Prints what follows the label on the first line of a statement.
fn print_head<N: Allocator, A: Allocator>(
    out: &mut String<A>,
    core: &Core<N>,
) -> Result<(), AllocError>
    ensures { Prints result out.old out.new (head_parts (deed_of core.now)) }
{
    match core {
        Core::Skip => out.push_str("skip;\n"),
        Core::Return => out.push_str("return;\n"),
        Core::Goto(label) => print_between(out, "goto ", label, ";\n"),
        Core::Assign(targets, sides) => print_assignment(out, targets, sides),
        Core::Call(name, arguments) => print_call(out, name, arguments),
        Core::Give(value) => print_between(out, "return ", value, ";\n"),
        Core::CallTo(target, name, arguments) => print_asking(out, target, name, arguments),
        Core::Assert(side) => print_between(out, "assert(", side, ");\n"),
        Core::Assume(side) => print_between(out, "assume(", side, ");\n"),
        Core::If(side, _, _) => print_between(out, "if (", side, ") then\n"),
        Core::While(side, _) => print_between(out, "while (", side, ") do\n"),
    }
}

/// Prints the statements of a block at this level.
#[cycle(printing)]
pub(crate) fn print_block<N: Allocator, A: Allocator>(
    out: &mut String<A>,
    level: usize,
    stmts: &[Stmt<N>],
) -> Result<(), AllocError>
    ensures { Prints result out.old out.new (block_parts level (block_of stmts.now)) }
{
    for stmt in stmts {
        print_margin(out, level)?;
        print_label(out, &stmt.label)?;
        print_head(out, &stmt.core)?;
        print_arms(out, level, &stmt.core)?;
    }
    Ok(())
}

/// Prints what follows the first line of a statement of this level: the blocks of an `if` or a `while`.
#[cycle(printing)]
fn print_arms<N: Allocator, A: Allocator>(
    out: &mut String<A>,
    level: usize,
    core: &Core<N>,
) -> Result<(), AllocError>
    ensures { Prints result out.old out.new (arms_parts level (deed_of core.now)) }
{
    let inner = below(level)?;
    match core {
        Core::If(_, then, otherwise) => {
            print_block(out, inner, then)?;
            print_line(out, level, "else\n")?;
            print_block(out, inner, otherwise)?;
            print_line(out, level, "fi\n")
        }
        Core::While(_, body) => {
            print_block(out, inner, body)?;
            print_line(out, level, "od\n")
        }
        _ => Ok(()),
    }
}
