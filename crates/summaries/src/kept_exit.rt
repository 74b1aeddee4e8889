//! What calls leave, as it is kept.

use flow_graph::Exit;
use path_sets::Halves;
use std::marker::Model;

/// What a call leaves, as a table keeps it, which takes 20 bytes instead of 32. Contracts see it as what is
/// left.
#[derive(Clone, Copy)]
pub(crate) struct KeptExit {
    globals: Halves,
    result: bool,
}

impl Model for KeptExit {
    ghost use Rattle.flow_graph.specs.declared.exit.Exit.{Exit};

    ghost Value = { Exit };

    ghost view = { λ k. record { globals = k.globals; result = k.result } };

    ghost inverse = { λ l. record { globals = l.globals; result = l.result } };
}

impl KeptExit {
    ghost use Rattle.std.specs.Prelude.{◌≡◌};

    /// What is left, to be kept.
    pub(crate) fn new(left: Exit) -> Self
        ensures { result ≡ left }
    {
        KeptExit {
            globals: Halves::new(left.globals),
            result: left.result,
        }
    }

    /// What is left.
    pub(crate) fn exit(self) -> Exit
        ensures { result ≡ self }
    {
        Exit {
            globals: self.globals.word(),
            result: self.result,
        }
    }
}
