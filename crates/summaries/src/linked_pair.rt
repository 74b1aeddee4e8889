//! Pairs in a list, with links.

use crate::kept_pair::KeptPair;
use std::marker::Model;

/// A pair with the link to the pair before it of the same entry.
#[derive(Clone, Copy)]
pub(crate) struct LinkedPair {
    pub(crate) pair: KeptPair,
    pub(crate) before: u32,
}

impl Model for LinkedPair {
    ghost use Rattle.std.specs.Prelude.{ℕ};
    ghost use Rattle.flow_graph.specs.declared.exit.Exit.{Exit};

    ghost Value = { (ℕ × Exit) × ℕ };

    ghost view = { λ l. (l.pair, l.before) };

    ghost inverse = { λ l. record { pair = l.0; before = l.1 } };
}
