//! The diagram of one point, whose nodes test one bit each.

ghost use Rattle.std.specs.Prelude.{◌≡◌, ℕ, ◌<◌, ◌≤◌, ◌^◌, IfOk};
ghost use Rattle.language.specs.Words.{word_bits};
ghost use Rattle.path_sets.specs.Masks.{bit_of};
ghost use Rattle.path_sets.specs.Walks.{IsNumber};
ghost use Rattle.path_sets.specs.Quads.{levels, points_of};
ghost use Rattle.path_sets.specs.Diagrams.{accepts, KeepsNodes};
ghost use Rattle.path_sets.specs.OneBitDiagrams.{AreSolved, Solves};

use crate::counting::bit_nodes::{BitNodes, EMPTY, FULL};
use crate::diagrams::quad::LEVELS;
use crate::diagrams::quads::Quads;
use crate::points::mask::has_point;
use indexmap::IndexMap;
use std::alloc::{AllocError, Allocator};
use std::hash::{BuildHasherDefault, FoldHasher};

/// The set of the valuations that are at the point, by what is left of them at a level and the diagram of a number
/// there; if nothing is left of a valuation, `zero` says whether it is at the point.
#[derive(Clone, Copy, PartialEq, Eq, Hash)]
pub(crate) struct Subproblem {
    pub(crate) number: u32,
    pub(crate) zero: bool,
    pub(crate) level: u8,
}

/// The numbers of the sets of subproblems that are solved.
type Memo<A> = IndexMap<Subproblem, u32, BuildHasherDefault<FoldHasher>, A>;

/// The number of the set of a subproblem, which is solved only once.
#[cycle(at_point)]
fn at_point<A: Allocator + Copy>(
    nodes: &mut BitNodes<A>,
    memo: &mut Memo<A>,
    quads: &Quads<A>,
    bit: usize,
    subproblem: Subproblem,
) -> Result<u32, AllocError>
    requires inside { IsNumber quads.now.kept.keys subproblem.number }
    requires bit { bit < 64 }
    requires level { subproblem.level ≤ levels }
    requires memo { AreSolved quads.now.kept.keys bit nodes.old.kept.keys memo.old.entries }
    ensures keeps { KeepsNodes nodes.old.kept.keys nodes.new.kept.keys }
    ensures memo { AreSolved quads.now.kept.keys bit nodes.new.kept.keys memo.new.entries }
    ensures answers { IfOk result (Solves quads.now.kept.keys bit nodes.new.kept.keys subproblem) }
{
    if subproblem.level == LEVELS {
        return Ok(if subproblem.zero { FULL } else { EMPTY });
    }
    if subproblem.number <= FULL && !subproblem.zero {
        return Ok(EMPTY);
    }
    if let Some(number) = memo.get(&subproblem) {
        return Ok(*number);
    }
    let number = from_children(nodes, memo, quads, bit, subproblem)?;
    memo.insert(subproblem, number)?;
    Ok(number)
}

/// The number of the set of a subproblem with a node, from the sets of the node's four children.
#[cycle(at_point)]
fn from_children<A: Allocator + Copy>(
    nodes: &mut BitNodes<A>,
    memo: &mut Memo<A>,
    quads: &Quads<A>,
    bit: usize,
    subproblem: Subproblem,
) -> Result<u32, AllocError>
    requires inside { IsNumber quads.now.kept.keys subproblem.number }
    requires bit { bit < 64 }
    requires level { subproblem.level < levels }
    requires memo { AreSolved quads.now.kept.keys bit nodes.old.kept.keys memo.old.entries }
    ensures keeps { KeepsNodes nodes.old.kept.keys nodes.new.kept.keys }
    ensures memo { AreSolved quads.now.kept.keys bit nodes.new.kept.keys memo.new.entries }
    ensures answers { IfOk result (Solves quads.now.kept.keys bit nodes.new.kept.keys subproblem) }
{
    let quad = quads.node(subproblem.number);
    let level = subproblem.level + 1;
    let none = Subproblem {
        number: quad.none,
        zero: subproblem.zero,
        level,
    };
    let first = subproblem_at(quads, bit, quad.first, level);
    let second = subproblem_at(quads, bit, quad.second, level);
    let both = subproblem_at(quads, bit, quad.both, level);
    let none = at_point(nodes, memo, quads, bit, none)?;
    let first = at_point(nodes, memo, quads, bit, first)?;
    let second = at_point(nodes, memo, quads, bit, second)?;
    let both = at_point(nodes, memo, quads, bit, both)?;
    let low = nodes.make(2 * subproblem.level + 1, none, second)?;
    let high = nodes.make(2 * subproblem.level + 1, first, both)?;
    nodes.make(2 * subproblem.level, low, high)
}

/// The subproblem of the valuations that are at the point by the diagram of a number, by what is left of them at a
/// level.
fn subproblem_at<A: Allocator + Copy>(
    quads: &Quads<A>,
    bit: usize,
    number: u32,
    level: u8,
) -> Subproblem
    requires inside { IsNumber quads.now.kept.keys number }
    requires bit { bit < 64 }
    ensures number { result.number ≡ number }
    ensures zero { result.zero ≡ bit_of (points_of quads.now.kept.keys number 0) bit }
    ensures level { result.level ≡ level }
{
    Subproblem {
        number,
        zero: has_point(quads.points(number, 0), bit),
        level,
    }
}

/// The reduced diagram, whose nodes test one bit each, of the valuations that are at a point by the diagram of a
/// number, and its number there.
pub(crate) fn one_bit_diagram<A: Allocator + Copy>(
    quads: &Quads<A>,
    number: u32,
    bit: usize,
) -> Result<(BitNodes<A>, u32), AllocError>
    requires inside { IsNumber quads.now.kept.keys number }
    requires bit { bit < 64 }
    ensures inside { IfOk result (λ r. IsNumber r.0.kept.keys r.1) }
    ensures same { IfOk result (λ r. (v : ℕ) → v < 2 ^ word_bits
        → accepts r.0.kept.keys r.1 v ≡ bit_of (points_of quads.now.kept.keys number v) bit) }
{
    let alloc = *quads.kept.allocator();
    let mut nodes = BitNodes::new(alloc);
    let mut memo = IndexMap::new(alloc);
    let subproblem = subproblem_at(quads, bit, number, 0);
    let root = at_point(&mut nodes, &mut memo, quads, bit, subproblem);
    drop(memo);
    let root = root?;
    Ok((nodes, root))
}
