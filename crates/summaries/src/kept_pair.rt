//! Pairs as they are kept.

use flow_graph::Exit;
use path_sets::Halves;
use std::marker::Model;

/// A pair as a table keeps it, which takes 24 bytes instead of 48: the index of its entry, and what is left. Contracts
/// see it as these two. The result has 32 bits, so that nothing is copied but whole words: a processor waits for a word
/// that was written in parts.
#[derive(Clone, Copy, PartialEq, Eq, Hash)]
pub(crate) struct KeptPair {
    entry: u32,
    result: u32,
    globals: Halves,
}

impl Model for KeptPair {
    ghost use Rattle.std.specs.Prelude.{◌≡◌, ℕ, ◌<◌, if◌then◌else◌, nat_eq};
    ghost use Rattle.std.proofs.Common.{arith};
    ghost use Rattle.std.proofs.lemmas.Bool.Decides.{nat_tests};
    ghost use Rattle.flow_graph.specs.declared.exit.Exit.{Exit};

    ghost Value = { ℕ × Exit };

    ghost view = { λ k. (k.entry, record { globals = k.globals; result = nat_eq k.result 1 }) };

    ghost invariant = { λ k. k.result < 2 };

    ghost inverse = { λ p.
        record { entry = p.0; result = if p.1.result then 1 else 0; globals = p.1.globals } };

    ghost inverse_ok = { λ k bit.
        let again : (if nat_eq k.result 1 then 1 else 0) ≡ k.result =
        Prim.grind (arith, nat_tests, bit) in
        λ i. record { entry = k.entry; result = again i; globals = k.globals } };
}

impl KeptPair {
    ghost use Rattle.std.specs.Prelude.{◌≡◌};

    /// What is left after the entry at an index, to be kept.
    #[inline(always)]
    pub(crate) fn new(entry: u32, left: Exit) -> Self
        ensures { result ≡ (entry, left) }
    {
        KeptPair {
            entry,
            result: left.result as u32,
            globals: Halves::new(left.globals),
        }
    }

    /// The index of the entry.
    pub(crate) fn entry(self) -> u32
        ensures { result ≡ self.0 }
    {
        self.entry
    }

    /// What is left.
    pub(crate) fn left(self) -> Exit
        ensures { result ≡ self.1 }
    {
        Exit {
            globals: self.globals.word(),
            result: self.result == 1,
        }
    }
}
