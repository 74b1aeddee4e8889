//! Sets of stacks, as numbered nodes of a finite automaton that reads a stack from its top (Bouajjani, Esparza and
//! Maler 1997). A stack is in a node if it is empty and the node is bare, or if its top frame is that of a head of the
//! node and what lies below it is in the head's node.
#![tactic(auto)]

mod inclusions;
mod laws;
mod no_turn;
mod node;
mod stack_sets;
mod turn;

pub use inclusions::{Inclusions, Pair};
pub use laws::{
    a_failing_turn_of_a_tuple_that_is_reached_is_unsafe,
    a_named_ending_has_the_stacks_that_a_turn_can_end_with,
    a_turn_fails_where_a_head_that_it_finds_fails, a_turn_finds_the_stacks_that_it_can_end_with,
    closed_tuples_of_which_none_fails_are_safe, saturated_items_are_all_that_a_turn_finds,
    settled_tuples_of_which_none_fails_are_safe_for_any_rounds,
};
pub use no_turn::NoTurn;
pub use node::{Head, Node};
pub use stack_sets::{BOTTOM, StackSets};
pub use turn::{Ending, TakesTurns, Turn};
