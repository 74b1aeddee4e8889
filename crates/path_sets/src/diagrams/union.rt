//! The points of insertions put into a diagram, many at a time.

ghost use Rattle.std.specs.Prelude.{◌≡◌, ℕ, ◌*◌, ◌<◌, ◌≤◌, IfOk, length, Some, slice_get};
ghost use Rattle.path_sets.specs.declared.diagrams.insertion.Insertion.{Insertion};
ghost use Rattle.path_sets.specs.Walks.{IsNumber};
ghost use Rattle.path_sets.specs.Halves.{ContinuesBy, half_levels, valuation_of};
ghost use Rattle.path_sets.specs.Quads.{Joins, KeepQuads, points_of};

use crate::diagrams::insertion::{Insertion, insertion_at, next_two_bits};
use crate::diagrams::quad::{child, set_child};
use crate::diagrams::quads::Quads;
use language::Word;
use std::alloc::{AllocError, Allocator};

/// How many insertions, from the first on, have valuations that continue by these two bits at a level, as that of the
/// first does.
fn run_of(insertions: &[Insertion], level: u8, two: u8) -> usize
    requires some { 0 < length insertions.now }
    requires level { level ≤ 2 * half_levels }
    ensures within { result ≤ length insertions.now }
    ensures some { 0 < result }
    ensures all { (i : ℕ) (c : Insertion) → 0 < i → i < result → slice_get insertions.now i ≡ Some c
        → ContinuesBy (valuation_of c) level two }
{
    let mut end = 1;
    while end < insertions.len() {
        match next_two_bits(&insertion_at(insertions, end), level) {
            Some(next) if next == two => end += 1,
            _ => return end,
        }
    }
    end
}

/// The number of a number's diagram with the points of the insertions, by what is left of their valuations at a level.
/// Those that continue alike are put in at once if they come one after another.
pub(crate) fn union<A: Allocator + Copy>(
    nodes: &mut Quads<A>,
    insertions: &[Insertion],
    number: u32,
    level: u8,
) -> Result<u32, AllocError>
    requires level { level ≤ 2 * half_levels }
    requires inside { IsNumber nodes.old.kept.keys number }
    ensures keeps { KeepQuads nodes.old.kept.keys nodes.new.kept.keys }
    ensures inside { IfOk result (λ r. IsNumber nodes.new.kept.keys r) }
    ensures joins { IfOk result
        (λ r.
        Joins insertions.now level (points_of nodes.old.kept.keys number)
        (points_of nodes.new.kept.keys r)) }
{
    let mut quad = nodes.node(number);
    let mut left = insertions;
    while !left.is_empty() {
        let insertion = insertion_at(left, 0);
        match next_two_bits(&insertion, level) {
            None => {
                quad.points |= insertion.mask;
                left = left.split_at(1).1;
            }
            Some(two) => {
                let (run, more) = left.split_at(run_of(left, level, two));
                let child = union(nodes, run, child(&quad, two as Word), level + 1)?;
                set_child(&mut quad, two as Word, child);
                left = more;
            }
        }
    }
    nodes.make(quad)
}
