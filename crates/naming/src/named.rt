//! A turn's sets of stacks, with a node for each.

ghost use Rattle.std.specs.Prelude.{◌≡◌, ◌<◌, ◌≤◌, ◌+◌, ◌++◌, ◌∷◌, [], ℕ, IfOk, List, OnOk, Some};
ghost use Rattle.std.specs.Prelude.{length, slice_get};
ghost use Rattle.naming.specs.Holds.{HoldsFor};
ghost use Rattle.naming.specs.Names.{AddsBelow, AddsPart, HasName, IsBared, IsLevel, IsPut};
ghost use Rattle.naming.specs.Names.{endings_in, put};
ghost use Rattle.saturation.specs.Items.{below_of, item_of};
ghost use Rattle.saturation.specs.declared.item.Item.{Item as AnItem};
ghost use Rattle.saturation.specs.declared.item.Item.TheVariants.{Gone};

use crate::part::{Part, node_at};
use indexmap::IndexSet;
use language::Word;
use saturation::{Below, Item};
use stack_sets::{Head, NoTurn, Node};
use std::alloc::{AllocError, Allocator};
use std::hash::{BuildHasherDefault, FoldHasher};
use turns::NumberedFrame;

/// A turn's sets of stacks in the order of naming, each once, and the node of each.
#[derive(Drop)]
pub(crate) struct Named<A: Allocator> {
    pub(crate) parts: IndexSet<Part, BuildHasherDefault<FoldHasher>, A>,
    pub(crate) nodes: Vec<Node<A>, A>,
}

/// Puts a head on the node at an index.
fn put_on<A: Allocator>(
    nodes: &mut Vec<Node<A>, A>,
    index: usize,
    head: Head,
) -> Result<(), AllocError>
    requires { index < length nodes.old.items }
    ensures { OnOk result (IsPut head nodes.old.items index nodes.new.items) }
{
    nodes[index].heads.push(head)?;
    Ok(())
}

/// Puts the empty stack into the node at an index.
fn bare_at<A: Allocator>(nodes: &mut Vec<Node<A>, A>, index: usize)
    requires { index < length nodes.old.items }
    ensures { IsBared nodes.old.items index nodes.new.items }
{
    nodes[index].bare = true;
}

impl<A: Allocator + Copy> Named<A> {
    /// No sets.
    pub(crate) fn new(alloc: A) -> Self
        ensures parts { result.parts.keys ≡ [] }
        ensures nodes { result.nodes.items ≡ [] }
    {
        Named {
            parts: IndexSet::new(alloc),
            nodes: Vec::new(alloc),
        }
    }

    /// The index of a set. It is added with an empty node if it is new.
    fn number(&mut self, alloc: A, part: Part) -> Result<usize, AllocError>
        ensures at { IfOk result (λ i. slice_get self.new.parts.keys i ≡ Some part) }
        ensures adds { OnOk result (AddsPart part self.old self.new) }
    {
        let (index, is_new) = self.parts.insert_full(part)?;
        if is_new {
            self.nodes.push(Node {
                bare: false,
                heads: Vec::new(alloc),
            })?;
        }
        Ok(index)
    }

    /// The number of the node of what lies below a frame.
    fn name(&mut self, alloc: A, base: usize, below: Below) -> Result<usize, NoTurn>
        ensures named { IfOk result (HasName base self.new.parts.keys (below_of below)) }
        ensures adds { OnOk result (AddsBelow below self.old self.new) }
    {
        match below {
            Below::Old(number) => Ok(number),
            Below::Call(entry) => {
                let index = self.number(alloc, Part::Call(entry))?;
                node_at(base, index)
            }
        }
    }

    /// Puts a frame over what lies below it on the node of a set.
    fn put(
        &mut self,
        alloc: A,
        base: usize,
        part: Part,
        frame: NumberedFrame,
        below: Below,
    ) -> Result<(), NoTurn>
        requires { IsLevel self.old }
        ensures level { OnOk result (IsLevel self.new) }
        ensures few { OnOk result (endings_in self.new.parts.keys
            ≤ endings_in self.old.parts.keys + 1) }
        ensures holds { (done : List AnItem) (item : AnItem)
            → put part frame (below_of below) ≡ item_of item → HoldsFor base done self.old
            → OnOk result (HoldsFor base (done ++ item ∷ []) self.new) }
    {
        let below = self.name(alloc, base, below)?;
        let index = self.number(alloc, part)?;
        put_on(&mut self.nodes, index, Head { frame, below })?;
        Ok(())
    }

    /// Puts the empty stack into the ending with these globals.
    fn put_empty(&mut self, alloc: A, globals: Word) -> Result<(), NoTurn>
        requires { IsLevel self.old }
        ensures level { OnOk result (IsLevel self.new) }
        ensures few { OnOk result (endings_in self.new.parts.keys
            ≤ endings_in self.old.parts.keys + 1) }
        ensures holds { (base : ℕ) (done : List AnItem) → HoldsFor base done self.old
            → OnOk result (HoldsFor base (done ++ Gone globals ∷ []) self.new) }
    {
        let index = self.number(alloc, Part::Ending(globals))?;
        bare_at(&mut self.nodes, index);
        Ok(())
    }

    /// Puts what was found into the sets.
    pub(crate) fn take_in(&mut self, alloc: A, base: usize, item: Item) -> Result<(), NoTurn>
        requires { IsLevel self.old }
        ensures level { OnOk result (IsLevel self.new) }
        ensures few { OnOk result (endings_in self.new.parts.keys
            ≤ endings_in self.old.parts.keys + 1) }
        ensures holds { (done : List AnItem) → HoldsFor base done self.old
            → OnOk result (HoldsFor base (done ++ item ∷ []) self.new) }
    {
        match item {
            Item::Head(top) => {
                let part = Part::Ending(top.globals);
                self.put(alloc, base, part, top.frame, top.below)
            }
            Item::Waits(caller) => {
                let part = Part::Call(caller.entry);
                self.put(alloc, base, part, caller.frame, caller.below)
            }
            Item::Gone(globals) => self.put_empty(alloc, globals),
        }
    }
}

/// The sets of stacks of a turn that found these items, behind so many nodes.
pub(crate) fn name_all<A: Allocator + Copy>(
    alloc: A,
    base: usize,
    items: &[Item],
) -> Result<Named<A>, NoTurn>
    ensures level { IfOk result IsLevel }
    ensures few { IfOk result (λ named. endings_in named.parts.keys ≤ length items.now) }
    ensures holds { IfOk result (HoldsFor base items.now) }
{
    let mut named = Named::new(alloc);
    for item in items {
        named.take_in(alloc, base, *item)?;
    }
    Ok(named)
}
