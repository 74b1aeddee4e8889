//! What a value is in the definitions: its tree, what the grammar reads as one, and how it is printed.

ghost use Rattle.std.specs.Prelude.{List};
ghost use Rattle.language.specs.Tree as tree;
ghost use Rattle.syntax.specs.Exact as exact;
ghost use Rattle.syntax.specs.Parser.{Parser};
ghost use Rattle.grammar.specs.Printed as printed;
ghost use Rattle.tokens.specs.Parts.{Part};
ghost use Rattle.trees.specs.Trees.{name_of, rhs_of, expr_of, proc_of, thread_of};

use std::alloc::Allocator;
use trees::{Expr, Name, Proc, Rhs, Thread};

/// What a text has, and stands for a tree of the definitions.
pub(crate) trait Written {
    // The trees that values stand for.
    ghost Tree: { Type 0 };

    // The tree that a value stands for.
    ghost tree: { Self → Tree };

    // What the grammar reads as such a tree.
    ghost grammar: { Parser Tree };

    // The printed form of a tree.
    ghost parts: { Tree → List Part };
}

impl<A: Allocator> Written for Name<A> {
    ghost Tree = { tree.Name };

    ghost tree = { name_of };

    ghost grammar = { exact.name };

    ghost parts = { printed.name_parts };
}

impl<A: Allocator> Written for Rhs<A> {
    ghost Tree = { tree.RightSide tree.Name };

    ghost tree = { rhs_of };

    ghost grammar = { exact.right };

    ghost parts = { printed.side_parts };
}

impl<A: Allocator> Written for Expr<A> {
    ghost Tree = { tree.Expression tree.Name };

    ghost tree = { expr_of };

    ghost grammar = { exact.expression };

    ghost parts = { printed.expression_parts };
}

impl<A: Allocator> Written for Proc<A> {
    ghost Tree = { tree.Procedure };

    ghost tree = { proc_of };

    ghost grammar = { exact.procedure };

    ghost parts = { printed.procedure_parts };
}

impl<A: Allocator> Written for Thread<A> {
    ghost Tree = { tree.ThreadLine };

    ghost tree = { thread_of };

    ghost grammar = { exact.thread_line };

    ghost parts = { printed.thread_parts };
}
