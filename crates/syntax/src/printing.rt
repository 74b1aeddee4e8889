//! Printing a tree.

ghost use Rattle.std.specs.Prelude.{◌≡◌, IfOk};
ghost use Rattle.std.specs.String.{string_bytes};
ghost use Rattle.trees.specs.Trees.{names_of, tree_of};
ghost use Rattle.grammar.specs.InGrammar.{InGrammar};
ghost use Rattle.syntax.specs.Text.{WithinLimits, IsTextOf};
ghost use Rattle.grammar.specs.Printed.{Prints, declaration_parts, printed};

use crate::print_statements::{print_block, print_margin};
use crate::show::{Show, print_all, print_between, print_list_between};
use std::alloc::{AllocError, Allocator};
use trees::{Name, Proc, Program, Thread};

/// Prints a declaration of these names, if there are any.
fn print_declaration<N: Allocator, A: Allocator>(
    out: &mut String<A>,
    level: usize,
    names: &[Name<N>],
) -> Result<(), AllocError>
    ensures { Prints result out.old out.new (declaration_parts level (names_of names.now)) }
{
    if names.is_empty() {
        return Ok(());
    }
    print_margin(out, level)?;
    print_list_between(out, "decl ", names, ";\n")
}

impl<N: Allocator> Show for Proc<N> {
    fn print<A: Allocator>(&self, out: &mut String<A>) -> Result<(), AllocError> {
        self.name.print(out)?;
        print_list_between(out, "(", &self.formals, ")\nbegin\n")?;
        print_declaration(out, 1, &self.locals)?;
        print_block(out, 1, &self.body)?;
        out.push_str("end\n")
    }
}

impl<N: Allocator> Show for Thread<N> {
    fn print<A: Allocator>(&self, out: &mut String<A>) -> Result<(), AllocError> {
        print_between(out, "thread ", &self.name, ";\n")
    }
}

/// Prints a program: the text of its tree, in the one form that docs/LANGUAGE.md lays down. `Err` is lack of memory.
pub fn print<N: Allocator, A: Allocator>(
    alloc: A,
    program: &Program<N>,
) -> Result<String<A>, AllocError>
    // The text is the printed form of the tree.
    ensures form { IfOk result (λ text. string_bytes text ≡ printed (tree_of program.now)) }
    // Within the limits of texts it is a text with that tree, offsets aside, if the tree is one of the grammar.
    ensures back { InGrammar (tree_of program.now) → IfOk result
        (λ text. WithinLimits (string_bytes text)
        → IsTextOf (string_bytes text) (tree_of program.now)) }
{
    let mut out = String::new(alloc);
    print_declaration(&mut out, 0, &program.globals)?;
    print_all(&mut out, &program.procs)?;
    print_all(&mut out, &program.threads)?;
    Ok(out)
}
