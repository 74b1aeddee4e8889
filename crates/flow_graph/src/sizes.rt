//! How many points statements have.

ghost use Rattle.std.specs.Prelude.{◌∷◌, []};
ghost use Rattle.flow_graph.specs.Points.{IsSize};

use std::alloc::Allocator;
use trees::Stmt;

/// How many statements there are, including those inside others.
#[cycle(sizes)]
pub(crate) fn size<N: Allocator>(stmts: &[Stmt<N>]) -> usize
    ensures { IsSize stmts.now result }
{
    let mut number: usize = 0;
    for stmt in stmts {
        number = number.saturating_add(size_of(stmt));
    }
    number
}

/// How many statements one is, with those inside of it.
#[cycle(sizes)]
pub(crate) fn size_of<N: Allocator>(stmt: &Stmt<N>) -> usize
    ensures { IsSize (stmt.now ∷ []) result }
{
    let (first, second) = stmt.core.inside();
    size(first).saturating_add(size(second)).saturating_add(1)
}
