//! What holds for every checked tree.

ghost use Rattle.language.specs.Tree.{Tree};
ghost use Rattle.checked.specs.Checked.{IsChecked};
ghost use Rattle.resolved.specs.Resolves.{Resolves};
ghost use Rattle.checked.specs.Rewritable.{IsRewritable};

/// Resolving never fails on a checked tree: each variable has a place among the globals or the formals and locals of
/// its procedure, each call a procedure with as many formals as it has arguments, each `goto` a rest that begins at its
/// label, each target a right side, and each thread line a procedure without formals.
pub fn checked_trees_resolve()
    ensures { (t : Tree) → IsChecked t → Resolves t }
{}

/// A checked tree has what the rewriting for rounds asks: its names are declared, its globals are distinct, and no
/// declared variable or procedure has two underscores in a row.
pub fn checked_trees_are_rewritable()
    ensures { (t : Tree) → IsChecked t → IsRewritable t }
{}
