//! The points of labels.

ghost use Rattle.std.specs.Prelude.{◌∷◌, []};
ghost use Rattle.flow_graph.specs.Points.{IsLabelFound};

use crate::sizes::{size, size_of};
use language::Point;
use std::alloc::Allocator;
use trees::Stmt;

/// The point of the first statement with this label, including those inside others, if the first of the statements
/// has this number; `None` if none has the label.
#[cycle(finding)]
pub(crate) fn find<N: Allocator>(label: &str, stmts: &[Stmt<N>], first: Point) -> Option<Point>
    ensures { IsLabelFound label.now stmts.now first result }
{
    let mut at = first;
    for stmt in stmts {
        if let Some(found) = find_at(label, stmt, at) {
            return Some(found);
        }
        at = at.saturating_add(size_of(stmt));
    }
    None
}

/// The same for one statement, which has this number, and those inside of it.
#[cycle(finding)]
fn find_at<N: Allocator>(label: &str, stmt: &Stmt<N>, number: Point) -> Option<Point>
    ensures { IsLabelFound label.now (stmt.now ∷ []) number result }
{
    if stmt.is_labelled(label) {
        return Some(number);
    }
    let inside = number.saturating_add(1);
    let (first, second) = stmt.core.inside();
    match find(label, first, inside) {
        Some(found) => Some(found),
        None => find(label, second, inside.saturating_add(size(first))),
    }
}
