//! The numbers of statements.
ghost use Rattle.language.specs.Rest.{Code};
ghost use Rattle.language.specs.Sequential.{numbered, points, numbers, statements, in_text_order};
ghost use Rattle.language.specs.Step.{Program, body_of};
ghost use Rattle.std.specs.Prelude.{◌≡◌, ℕ, slice_get};

/// The statements of a block that is marked in text order have the numbers from the first one on, each once.
pub fn statements_are_numbered_in_text_order()
    ensures { (n : ℕ) (b : Code) → points (numbered n b) ≡ numbers n (statements b) }
{}

/// In a program that is marked in text order, each body is marked from 1 on.
pub fn each_body_is_numbered_from_1()
    ensures { (p : Program) (q : ℕ) → body_of (slice_get (in_text_order p).routines q)
        ≡ numbered 1 (body_of (slice_get p.routines q)) }
{}
