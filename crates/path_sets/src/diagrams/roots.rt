//! The roots of the diagrams, by their keys.

ghost use Rattle.std.specs.Prelude.{◌≡◌, ◌<◌, ◌∷◌, ◌++◌, [], None, Some, slice_get, IfSome, IsNone};
ghost use Rattle.std.specs.Prelude.{IfOk, OnOk, OnErr};
ghost use Rattle.std.specs.Map.{lookup};
ghost use Rattle.indexmap.specs.IndexMap.{IsUnique, index_map_len, keys};
ghost use Rattle.path_sets.specs.Insertions.{RootsStay};
ghost use Rattle.path_sets.specs.declared.diagrams.roots.DiagramKey.{DiagramKey};
ghost use Rattle.path_sets.specs.Diagrams.{root_of, diagram_eq, diagram_of, GivesRoot};

use crate::points::halves::Halves;
use crate::points::mask_key::MaskKey;
use crate::points::seek::{ByKey, find};
use std::alloc::{AllocError, Allocator};

/// The key of a diagram: a valuation on entry, and the number of a block of 64 points.
#[derive(Clone, Copy, PartialEq, Eq, Hash)]
pub(crate) struct DiagramKey {
    pub(crate) entry: Halves,
    pub(crate) block: usize,
}

/// The key of the diagram that has a mask.
pub(crate) fn diagram_of(mask_key: &MaskKey) -> DiagramKey
    ensures { result ≡ diagram_of mask_key.now }
{
    DiagramKey {
        entry: mask_key.entry,
        block: mask_key.block,
    }
}

/// For each diagram the number of its root, in the order in which the keys are first met.
pub(crate) type Roots<A> = ByKey<DiagramKey, u32, A>;

/// The root of a diagram, 0 if there is none; the diagram at the index `last` is tried first.
pub(crate) fn root<A: Allocator + Copy>(roots: &Roots<A>, last: usize, diagram: &DiagramKey) -> u32
    ensures { result ≡ root_of roots.now.entries diagram.now.entry diagram.now.block }
{
    if let Some((used, number)) = roots.get_index(last) {
        if used == diagram {
            return *number;
        }
    }
    match roots.get(diagram) {
        Some(number) => *number,
        None => 0,
    }
}

/// The root of the diagram at an index.
pub(crate) fn root_at<A: Allocator + Copy>(roots: &Roots<A>, at: usize) -> u32
    requires { at < index_map_len roots.now }
    ensures { (diagram : DiagramKey) → slice_get (keys roots.now) at ≡ Some diagram
        → result ≡ root_of roots.now.entries diagram.entry diagram.block }
{
    match roots.get_index(at) {
        Some((_, number)) => *number,
        None => unreachable!(),
    }
}

/// Gives a diagram that has no root one. If memory is refused, it has none.
fn insert_root<A: Allocator + Copy>(
    roots: &mut Roots<A>,
    diagram: DiagramKey,
    number: u32,
) -> Result<(), AllocError>
    requires { lookup (diagram_eq diagram) roots.old.entries ≡ None }
    ensures ok { OnOk result (roots.new.entries ≡ roots.old.entries ++ (diagram, number) ∷ []) }
    ensures roots { OnOk result (GivesRoot roots.old.entries diagram number roots.new.entries) }
    ensures err { OnErr result (roots.new.entries ≡ roots.old.entries) }
    ensures unique { IsUnique diagram_eq roots.new }
{
    roots.insert(diagram, number)?;
    Ok(())
}

/// The index of a diagram; one that has no root gets that of the empty diagram.
pub(crate) fn index_of<A: Allocator + Copy>(
    roots: &mut Roots<A>,
    last: usize,
    diagram: DiagramKey,
) -> Result<usize, AllocError>
    requires { IsUnique diagram_eq roots.old }
    ensures at { IfOk result (λ at. slice_get (keys roots.new) at ≡ Some diagram) }
    ensures stay { RootsStay roots.old.entries roots.new.entries }
    ensures unique { IsUnique diagram_eq roots.new }
{
    match find(roots, last, &diagram) {
        Some(at) => Ok(at),
        None => {
            let at = roots.len();
            insert_root(roots, diagram, 0)?;
            Ok(at)
        }
    }
}

/// Gives the diagram at an index another root.
pub(crate) fn set_root<A: Allocator + Copy>(roots: &mut Roots<A>, at: usize, number: u32)
    requires within { at < index_map_len roots.old }
    requires unique { IsUnique diagram_eq roots.old }
    ensures roots { (diagram : DiagramKey) → slice_get (keys roots.old) at ≡ Some diagram
        → GivesRoot roots.old.entries diagram number roots.new.entries }
    ensures keys { keys roots.new ≡ keys roots.old }
    ensures unique { IsUnique diagram_eq roots.new }
{
    roots[at] = number;
}
