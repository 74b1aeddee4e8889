//! The grammar of the language: token lists and their trees, and the one form in which a tree is printed.
#![tactic(auto)]

ghost use Rattle.std.specs.Prelude.{◌≡◌, ◌++◌, codes};
ghost use Rattle.grammar.specs.Printed.{printed};
ghost use Rattle.grammar.specs.PrintedExample.{jumping_tree};

/// A law: how a small program with a loop, a label and a jump is printed.
pub fn a_loop_is_printed_over_lines()
    ensures { printed jumping_tree
        ≡ codes "decl x, y;\np(v)\nbegin\n  decl l;\n  L: while (?) do\n    x, l := v = !l, ?;\n"
        ++ codes "  od\n  goto L;\nend\nthread p;\n" }
{}
