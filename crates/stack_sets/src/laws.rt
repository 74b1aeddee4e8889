//! Laws: what a turn finds from a node is what it can end with, and what tuples of nodes say of a verdict.

ghost use Rattle.std.specs.Prelude.{◌↔◌, ℕ, List};
ghost use Rattle.language.specs.Lists.{Member};
ghost use Rattle.flow_graph.specs.declared.graph.Graph.{Graph};
ghost use Rattle.turns.specs.declared.numbered_frame.NumberedFrame.{NumberedFrame};
ghost use Rattle.turns.specs.Between.{FailsBelow};
ghost use Rattle.turns.specs.Numbered.{Failures, numbered_machine, numbered_threads};
ghost use Rattle.turns.specs.Parts.{Part, ending, AreNamed};
ghost use Rattle.turns.specs.Saturated.{IsSaturated};
ghost use Rattle.turns.specs.Stacks.{InNode, NoneVacant};
ghost use Rattle.turns.specs.Tuples.{MetTuple, met_by, settled, IsClosedBelow, NoneFailsBelow};
ghost use Rattle.turns.specs.Tuples.{AreReached};
ghost use Rattle.turns.specs.Tuples.{SomeFailsBelow};
ghost use Rattle.turns.specs.Turn.{Item, Found, IsStackOf, TurnEnds, SomeHeadFails, SomeStackFails};
ghost use Rattle.stack_sets.specs.Nodes.{by_number};
ghost use Rattle.stack_sets.specs.declared.node.Node.{Node};

use std::alloc::Allocator;

/// The stacks of what a turn finds are those with which it can end, recursion included.
pub fn a_turn_finds_the_stacks_that_it_can_end_with<A: Allocator>()
    ensures { (graphs : List (Graph A)) (fails : Failures) (nodes : List (Node A)) (g q h : ℕ)
        (stack : List NumberedFrame)
        → IsStackOf (by_number nodes)
        (Found (numbered_machine graphs fails) (by_number nodes) g q) h stack
        ↔ TurnEnds (numbered_machine graphs fails) (by_number nodes) g q h stack }
{}

/// Where no node is vacant, a turn fails from some stack of a node if and only if some head fails that the turn finds.
pub fn a_turn_fails_where_a_head_that_it_finds_fails<A: Allocator>()
    ensures { (graphs : List (Graph A)) (fails : Failures) (nodes : List (Node A)) (g q : ℕ)
        → NoneVacant (by_number nodes)
        → SomeHeadFails (numbered_machine graphs fails) (by_number nodes) g q
        ↔ SomeStackFails (numbered_machine graphs fails) (by_number nodes) g q }
{}

/// A list of items that has the first ones of a turn, and what its items lead to, has all that the turn finds.
pub fn saturated_items_are_all_that_a_turn_finds<A: Allocator>()
    ensures { (graphs : List (Graph A)) (fails : Failures) (nodes : List (Node A)) (g q : ℕ)
        (items : List (Item ℕ ℕ NumberedFrame))
        → IsSaturated (numbered_machine graphs fails) (by_number nodes) g q (λ x. Member x items)
        → (x : Item ℕ ℕ NumberedFrame)
        → Found (numbered_machine graphs fails) (by_number nodes) g q x
        → Member x items }
{}

/// A node by which an ending of a turn is named has the stacks with which the turn can end.
pub fn a_named_ending_has_the_stacks_that_a_turn_can_end_with<A: Allocator>()
    ensures { (graphs : List (Graph A)) (fails : Failures) (nodes : List (Node A)) (g q : ℕ)
        (after : List (Node A))
        (named : List (Part ℕ ℕ NumberedFrame × ℕ))
        → AreNamed (by_number nodes) (Found (numbered_machine graphs fails) (by_number nodes) g q)
        (by_number after)
        (λ part n. Member (part, n) named)
        → (h m : ℕ) → Member (ending h, m) named → (stack : List NumberedFrame)
        → InNode (by_number after) m stack
        ↔ TurnEnds (numbered_machine graphs fails) (by_number nodes) g q h stack }
{}

/// Where tuples are closed under the turns of all threads below round k, and no turn of one fails, no turn below round
/// k fails.
pub fn closed_tuples_of_which_none_fails_are_safe<A: Allocator>()
    ensures { (graphs : List (Graph A)) (fails : Failures) (threads : List ℕ)
        (nodes : List (Node A))
        (tuples : List (MetTuple ℕ ℕ)) (k : ℕ)
        → IsClosedBelow (numbered_threads graphs fails threads) (by_number nodes) (met_by tuples) k
        → NoneFailsBelow (numbered_threads graphs fails threads) (by_number nodes) (met_by tuples) k
        → FailsBelow (numbered_threads graphs fails threads) k → ⊥ }
{}

/// Where tuples are closed under the turns of all threads whatever the round, and no turn of one fails, no turn of any
/// round fails.
pub fn settled_tuples_of_which_none_fails_are_safe_for_any_rounds<A: Allocator>()
    ensures { (graphs : List (Graph A)) (fails : Failures) (threads : List ℕ)
        (nodes : List (Node A))
        (tuples : List (MetTuple ℕ ℕ))
        → ((k : ℕ)
        → IsClosedBelow (numbered_threads graphs fails threads) (by_number nodes)
        (settled tuples) k)
        → ((k : ℕ)
        → NoneFailsBelow (numbered_threads graphs fails threads) (by_number nodes)
        (settled tuples) k)
        → (k : ℕ) → FailsBelow (numbered_threads graphs fails threads) k → ⊥ }
{}

/// Where tuples stand for what is reached, and a turn of one that is met below round k fails, a turn below round k
/// fails.
pub fn a_failing_turn_of_a_tuple_that_is_reached_is_unsafe<A: Allocator>()
    ensures { (graphs : List (Graph A)) (fails : Failures) (threads : List ℕ)
        (nodes : List (Node A))
        (tuples : List (MetTuple ℕ ℕ)) (k : ℕ)
        → AreReached (numbered_threads graphs fails threads) (by_number nodes) (met_by tuples)
        → SomeFailsBelow (numbered_threads graphs fails threads) (by_number nodes) (met_by tuples) k
        → FailsBelow (numbered_threads graphs fails threads) k }
{}
