//! The law of names in messages.

ghost use Rattle.std.specs.Prelude.{◌≡◌, ℕ, List};
ghost use Rattle.std.specs.Str.{IsUtf8};
ghost use Rattle.diagnostics.specs.Name.{HasNoControl, escaped};

/// What is written for a name has no control character, and a name that has none is written as it is.
pub fn an_escaped_name_has_no_control_character()
    ensures escaped { (name : List ℕ) → IsUtf8 name → HasNoControl (escaped name) }
    ensures same { (name : List ℕ) → IsUtf8 name → HasNoControl name → escaped name ≡ name }
{}
