//! Laws: a program is unsafe where a turn of its threads fails.

ghost use Rattle.std.specs.Prelude.{◌↔◌, ℕ, List};
ghost use Rattle.language.specs.Rounds.{Unsafe};
ghost use Rattle.language.specs.Sequential.{in_text_order};
ghost use Rattle.language.specs.Step.{Program};
ghost use Rattle.flow_graph.specs.declared.graph.Graph.{Graph};
ghost use Rattle.flow_graph.specs.Graphs.{AreDrawnFrom};
ghost use Rattle.turns.specs.Between.{FailsBelow};
ghost use Rattle.turns.specs.Numbered.{Failures, AreNarrow, TellFailures, numbered_threads};

use std::alloc::Allocator;

/// A program is unsafe within k rounds if and only if a turn below round k fails of its threads by numbers, as its flow
/// graphs have them.
pub fn a_program_is_unsafe_where_a_turn_by_numbers_fails<A: Allocator>()
    ensures { (p : Program) (graphs : List (Graph A)) (fails : Failures) (k : ℕ)
        → AreDrawnFrom p graphs
        → AreNarrow p → TellFailures p fails
        → Unsafe p k ↔ FailsBelow (numbered_threads graphs fails p.threads) k }
{}

/// The numbers of statements do not matter to a verdict.
pub fn a_verdict_does_not_depend_on_marks()
    ensures { (p : Program) (k : ℕ) → Unsafe (in_text_order p) k ↔ Unsafe p k }
{}
