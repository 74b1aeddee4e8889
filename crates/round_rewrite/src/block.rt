//! Statements appended to others.

ghost use Rattle.std.specs.Prelude.{◌≡◌, IfOk, IsOkAnd, option_map};
ghost use Rattle.language.specs.Tree.{done};
ghost use Rattle.trees.specs.Trees.{name_of, deed_of, block_of, marked_before};
ghost use Rattle.round_rewrite.specs.Writing.{Appends, Lays};
ghost use Rattle.round_rewrite.specs.Table.{no_mark};

use crate::lists::put;
use std::alloc::{AllocError, Allocator};
use trees::{Core, Name, Stmt};

/// Statements, one after the other.
pub(crate) type Stmts<A> = Vec<Stmt<A>, A>;

/// Appends a statement to others.
#[tactic(auto, using(crate::proofs::AppendLemmas::lays_pushed))]
pub(crate) fn push_marked<A: Allocator>(
    label: Option<Name<A>>,
    at: u32,
    core: Core<A>,
    into: &mut Stmts<A>,
) -> Result<(), AllocError>
    ensures { Appends result into.old.items into.new.items
        (marked_before (record { label = option_map name_of label; at = at }) (deed_of core)) }
{
    put(into, Stmt { label, at, core })?;
    Ok(())
}

/// Appends a statement without a label to others.
pub(crate) fn push<A: Allocator>(core: Core<A>, into: &mut Stmts<A>) -> Result<(), AllocError>
    ensures { Appends result into.old.items into.new.items (marked_before no_mark (deed_of core)) }
{
    push_marked(None, 0, core, into)
}

/// Appends a statement without a label to others, if it could be made.
pub(crate) fn push_made<A: Allocator>(
    core: Result<Core<A>, AllocError>,
    into: &mut Stmts<A>,
) -> Result<(), AllocError>
    ensures { IfOk result (λ _. IsOkAnd core
        (λ c. Lays into.old.items into.new.items (marked_before no_mark (deed_of c)))) }
{
    push(core?, into)
}

/// The block of one statement.
pub(crate) fn single<A: Allocator + Copy>(alloc: &A, core: Core<A>) -> Result<Stmts<A>, AllocError>
    ensures { IfOk result (λ v. block_of v.items ≡ marked_before no_mark (deed_of core) done) }
{
    let mut block = Vec::new(*alloc);
    push(core, &mut block)?;
    Ok(block)
}
