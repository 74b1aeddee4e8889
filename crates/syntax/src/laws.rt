//! Laws of texts, their trees and their faults.

ghost use Rattle.std.specs.Prelude.{◌≡◌, ◌<◌, ℕ, List};
ghost use Rattle.language.specs.Tree.{Tree};
ghost use Rattle.syntax.specs.Text.{Text, ReadFaultStands, fault_number};
ghost use Rattle.syntax.specs.declared.fault.ReadFault.{ReadFault};

/// A law: a text has one tree, no fault but lack of memory stands for a text, and for other bytes only one of
/// the faults 1 to 4 stands.
pub fn texts_have_one_tree()
    ensures one_tree { (bytes : List ℕ) (tree other : Tree) → Text bytes tree → Text bytes other
        → tree ≡ other }
    ensures no_fault { (bytes : List ℕ) (tree : Tree) (fault : ReadFault)
        → Text bytes tree → ReadFaultStands fault bytes → fault_number fault ≡ 5 }
    ensures one_fault { (bytes : List ℕ) (fault other : ReadFault)
        → ReadFaultStands fault bytes → ReadFaultStands other bytes → fault_number fault < 5
        → fault_number other < 5 → fault_number fault ≡ fault_number other }
{}
