//! What a message is.
ghost use Rattle.std.specs.Prelude.{ℕ};

/// A type of messages, each of which fits some mailboxes in a world `W`, which says where messages belong.
pub trait Mail<W>: Copy + Eq {
    ghost fits: { W → ℕ → Self → Type 0 };
}
