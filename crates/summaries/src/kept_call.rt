//! Calls as they are kept.

use crate::edge::CallKey;
use path_sets::Halves;
use std::marker::Model;

/// A call as a table keeps it, which takes 20 bytes instead of 32. Contracts see it as the call. The callee has 32
/// bits, so that nothing is copied but whole words: a processor waits for a word that was written in parts.
#[derive(Clone, Copy, PartialEq, Eq, Hash)]
pub(crate) struct KeptCall {
    callee: u32,
    entered: Halves,
}

impl Model for KeptCall {
    ghost use Rattle.std.specs.Prelude.{◌<◌};
    ghost use Rattle.summaries.specs.declared.edge.CallKey.{CallKey};

    ghost Value = { CallKey };

    ghost view = { λ k. record { callee = k.callee; entered = k.entered } };

    ghost invariant = { λ k. k.callee < 256 };

    ghost inverse = { λ c. record { callee = c.callee; entered = c.entered } };
}

impl KeptCall {
    ghost use Rattle.std.specs.Prelude.{◌≡◌};

    /// The call, to be kept.
    pub(crate) fn new(call: CallKey) -> Self
        ensures { result ≡ call }
    {
        KeptCall {
            callee: call.callee as u32,
            entered: Halves::new(call.entered),
        }
    }

    /// The call.
    pub(crate) fn call(self) -> CallKey
        ensures { result ≡ self }
    {
        CallKey {
            callee: self.callee as u8,
            entered: self.entered.word(),
        }
    }
}
