//! What the lanes of a lock may do to the value that it keeps.
ghost use Rattle.std.specs.Prelude.{ℕ};

/// When one kept value comes before another, and which part of a value is a lane's own.
pub trait LaneLaw {
    /// A lane's own part of a value. No value of it is made.
    type Part;

    ghost before: { Self → Self → Type 0 };

    ghost part: { ℕ → Self → Self.Part };

    ghost reflexive: { (x : Self) → before x x };

    ghost transitive: { (x y z : Self) → before x y → before y z → before x z };
}
