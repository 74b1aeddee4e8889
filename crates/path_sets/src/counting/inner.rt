//! The inner nodes of a diagram.

ghost use Rattle.std.specs.Prelude.{◌≡◌, ◌<◌, ◌^◌, true, IfOk};
ghost use Rattle.language.specs.Words.{word_bits};
ghost use Rattle.path_sets.specs.Walks.{IsNumber};
ghost use Rattle.path_sets.specs.Diagrams.{accepts};
ghost use Rattle.path_sets.specs.Suffixes.{HasNodes};

use crate::counting::bit_nodes::{BitNodes, FULL};
use std::alloc::{AllocError, Allocator};

/// How many inner nodes the diagram of a number's set has: the nodes that are reached from the number.
pub(crate) fn inner_nodes<A: Allocator + Copy>(
    nodes: &BitNodes<A>,
    number: u32,
) -> Result<u64, AllocError>
    requires { IsNumber nodes.now.kept.keys number }
    ensures { IfOk result
        (HasNodes word_bits
        (λ v. (v < 2 ^ word_bits) × (accepts nodes.now.kept.keys number v ≡ true))) }
{
    let mut reached = vec![in *nodes.kept.allocator(); false; number as usize + 1]?;
    reached[number as usize] = true;
    let mut count = 0;
    let mut at = number;
    while at > FULL {
        if reached[at as usize] {
            let node = nodes.kept[(at - 2) as usize];
            reached[node.low as usize] = true;
            reached[node.high as usize] = true;
            count += 1;
        }
        at -= 1;
    }
    Ok(count)
}
