//! Laws: the rewriting theorem, and worked programs.

ghost use Rattle.std.specs.Prelude.{◌≡◌, ◌≤◌, ℕ};
ghost use Rattle.language.specs.Tree.{Tree};
ghost use Rattle.language.specs.Step.{Program};
ghost use Rattle.grammar.specs.Printed.{printed};
ghost use Rattle.round_rewrite.specs.Law.{KeepsFailures, KeepsTree};
ghost use Rattle.round_rewrite.specs.WorkedTexts.{Becomes};
ghost use Rattle.round_rewrite.specs.WorkedTexts as worked;
ghost use Rattle.checked.specs.Rewritable.{IsRewritable};
ghost use Rattle.round_rewrite.specs.Narrow.{IsNarrowFor};
ghost use Rattle.resolved.specs.Scoped.{FitsScopes};
ghost use Rattle.round_rewrite.specs.Limits.{most_rounds};

/// The rewriting theorem, over the names that are printed: for 1 to 8 rounds, a tree whose names are declared, and
/// widths of at most 128, some run within the rounds fails an assert if and only if `main__` of the rewritten tree
/// can end with `bad__` being 1.
pub fn rewriting_keeps_failures()
    ensures { (t : Tree) (rounds : ℕ) → IsRewritable t → IsNarrowFor rounds t → 1 ≤ rounds
        → rounds ≤ most_rounds
        → KeepsTree rounds t }
{}

/// The same for resolved programs: the rewriting over places keeps exactly the failing asserts, with no bound
/// on widths.
pub fn rewriting_keeps_failures_of_resolved_programs()
    ensures { (p : Program) (rounds : ℕ) → FitsScopes p → 1 ≤ rounds → rounds ≤ most_rounds
        → KeepsFailures rounds p }
{}

/// Four programs are rewritten to exactly these texts, byte for byte: one thread that does nothing, for one round and
/// for five; one that sets a global to either value, for two; a program with each construct, for three; and one that
/// calls for values, for two.
pub fn worked_programs_are_rewritten_to_these_texts()
    ensures skipping { printed worked.skipping ≡ worked.skipping_text }
    ensures one_round { Becomes worked.skipping 1 worked.skipping_in_one_round }
    ensures five_rounds { Becomes worked.skipping 5 worked.skipping_in_five_rounds }
    ensures drawing { printed worked.drawing_once ≡ worked.drawing_text }
    ensures two_rounds { Becomes worked.drawing_once 2 worked.drawing_in_two_rounds }
    ensures constructs { printed worked.each_construct ≡ worked.construct_text }
    ensures three_rounds { Becomes worked.each_construct 3 worked.constructs_in_three_rounds }
    ensures giving { printed worked.giving ≡ worked.giving_text }
    ensures giving_two { Becomes worked.giving 2 worked.giving_in_two_rounds }
{}
