//! Laws of printed texts.

ghost use Rattle.std.specs.Prelude.{ℕ, List};
ghost use Rattle.language.specs.Tree.{Tree};
ghost use Rattle.grammar.specs.InGrammar.{InGrammar};
ghost use Rattle.syntax.specs.Text.{WithinLimits, IsTextOf, Text};
ghost use Rattle.grammar.specs.Printed.{printed};

/// A law: the tree of a text is one of the grammar; what is printed for a tree of the grammar is a text with the same
/// tree, offsets aside, if it is within the limits of texts; so what is read and printed is read again.
pub fn printed_texts_are_read_back()
    ensures in_grammar { (bytes : List ℕ) (tree : Tree) → Text bytes tree → InGrammar tree }
    ensures reads_back { (tree : Tree) → InGrammar tree → WithinLimits (printed tree)
        → IsTextOf (printed tree) tree }
    ensures again { (bytes : List ℕ) (tree : Tree)
        → Text bytes tree → WithinLimits (printed tree) → IsTextOf (printed tree) tree }
{}
