//! Kept nodes.

ghost use Rattle.std.specs.Prelude.{◌≡◌, ◌<◌, ◌++◌, ◌∷◌, [], true, IfOk, IfSome, IsTrue, OnErr};
ghost use Rattle.std.specs.Prelude.{OnOk, Some, length};
ghost use Rattle.std.specs.Prelude.{slice_get};
ghost use Rattle.stack_sets.specs.Nodes.{HasContent, IsNumbered, IsPrefix, IsSame, MayAdd};

use crate::node::{Head, Node};
use groups::Groups;
use indexmap::IndexMap;
use std::alloc::{AllocError, Allocator};
use std::hash::{BuildHasherDefault, FoldHasher, Hash, Hasher};

/// The number of the node that has the empty stack alone.
pub const BOTTOM: usize = 0;

/// Nodes by number. They are added, and never change.
#[derive(Drop)]
pub struct StackSets<A: Allocator> {
    nodes: Vec<Node<A>, A>,
    /// For a hash of contents the number of a node with that, as a guess where to find equal contents.
    guesses: IndexMap<u64, usize, BuildHasherDefault<FoldHasher>, A>,
    /// For a hash of the contents of a circle of nodes the numbers of one with that, in order, as such a guess.
    circles: Groups<u64, usize, A>,
}

/// Whether two nodes have the same content.
fn is_same<A: Allocator>(one: &Node<A>, other: &Node<A>) -> bool
    ensures { IsTrue result → IsSame one.now other.now }
{
    one.bare == other.bare && one.heads.as_slice() == other.heads.as_slice()
}

/// A hash of the content of a node.
// Nothing depends on it but how often equal contents are found.
fn hash_of<A: Allocator>(node: &Node<A>) -> u64 {
    let mut hasher = FoldHasher::default();
    node.bare.hash(&mut hasher);
    node.heads.as_slice().hash(&mut hasher);
    hasher.finish()
}

impl<A: Allocator + Copy> StackSets<A> {
    ghost use Rattle.stack_sets.specs.Nodes.{nodes_in};

    /// The node of the empty stack alone.
    pub fn new(alloc: A) -> Result<Self, AllocError>
        ensures { IfOk result
            (λ sets. (length (nodes_in sets) ≡ 1) × IsNumbered (nodes_in sets) 0 true []) }
    {
        let mut nodes = Vec::new(alloc);
        nodes.push(Node {
            bare: true,
            heads: Vec::new(alloc),
        })?;
        Ok(StackSets {
            nodes,
            guesses: IndexMap::new(alloc),
            circles: Groups::new(alloc),
        })
    }

    /// How many nodes there are.
    pub fn len(&self) -> usize
        ensures { result ≡ length (nodes_in self.now) }
    {
        self.nodes.len()
    }

    /// The node of a number.
    pub fn node(&self, number: usize) -> &Node<A>
        requires { number < length (nodes_in self.now) }
        ensures { slice_get (nodes_in self.now) number ≡ Some result.now }
    {
        &self.nodes[number]
    }

    /// Adds a node, whatever its content. Returns its number, which is that of the nodes before.
    pub fn add(&mut self, node: Node<A>) -> Result<usize, AllocError>
        ensures number { IfOk result (λ n. n ≡ length (nodes_in self.old)) }
        ensures ok { OnOk result (nodes_in self.new ≡ nodes_in self.old ++ node ∷ []) }
        ensures err { OnErr result (nodes_in self.new ≡ nodes_in self.old) }
    {
        let number = self.nodes.len();
        self.nodes.push(node)?;
        Ok(number)
    }

    /// Whether the node of a number is there and has this content.
    pub fn has_content(&self, number: usize, node: &Node<A>) -> bool
        ensures { IsTrue result → HasContent (nodes_in self.now) number node.now }
    {
        match self.nodes.get(number) {
            Some(known) => is_same(known, node),
            None => false,
        }
    }

    /// The number of a node that has this content, if the one that was added last with this hash has it.
    fn guessed(&self, hash: u64, node: &Node<A>) -> Option<usize>
        ensures { IfSome result (λ n. HasContent (nodes_in self.now) n node.now) }
    {
        let number = *self.guesses.get(&hash)?;
        if self.has_content(number, node) {
            Some(number)
        } else {
            None
        }
    }

    /// The number of a node with this content: that of one that was found to have it, or else of a new one.
    pub fn keep(&mut self, node: Node<A>) -> Result<usize, AllocError>
        ensures number { IfOk result (λ n. HasContent (nodes_in self.new) n node) }
        ensures keeps { IsPrefix (nodes_in self.old) (nodes_in self.new) }
        ensures adds { OnOk result (MayAdd node (nodes_in self.old) (nodes_in self.new)) }
    {
        let hash = hash_of(&node);
        if let Some(number) = self.guessed(hash, &node) {
            return Ok(number);
        }
        let number = self.add(node)?;
        self.guesses.insert(hash, number)?;
        Ok(number)
    }

    /// Notes the content of the node of a number, so that `keep` finds it.
    pub fn note_content(&mut self, number: usize) -> Result<(), AllocError>
        ensures { nodes_in self.new ≡ nodes_in self.old }
    {
        if let Some(node) = self.nodes.get(number) {
            let hash = hash_of(node);
            self.guesses.insert(hash, number)?;
        }
        Ok(())
    }

    /// The numbers that were noted for circles with this hash.
    // No more is promised of them: whoever takes them looks at the nodes.
    pub fn circles(&self, hash: u64) -> &[usize] {
        self.circles.of(hash)
    }

    /// Notes the number of a node of a circle with this hash.
    pub fn note_circle(&mut self, hash: u64, number: usize) -> Result<(), AllocError>
        ensures { nodes_in self.new ≡ nodes_in self.old }
    {
        self.circles.add(hash, number)
    }
}
