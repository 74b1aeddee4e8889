//! The name of a file in a message.

ghost use Rattle.std.specs.Prelude.{◌≡◌, ◌++◌, ◌<◌, OnOk};
ghost use Rattle.std.specs.String.{string_bytes};
ghost use Rattle.diagnostics.specs.Name.{by_code, escape, escaped, written};

use std::alloc::{AllocError, Allocator};

/// Writes the escape of a character by its code.
fn push_code<A: Allocator>(message: &mut String<A>, character: char) -> Result<(), AllocError>
    requires { character < 256 }
    ensures { OnOk result
        (string_bytes message.new ≡ string_bytes message.old ++ by_code character) }
{
    write!(message, "\\x{:02x}", u32::from(character))
}

/// Writes the escape of a control character.
fn push_escape<A: Allocator>(message: &mut String<A>, control: char) -> Result<(), AllocError>
    requires { control < 256 }
    ensures { OnOk result (string_bytes message.new ≡ string_bytes message.old ++ escape control) }
{
    match control {
        '\t' => message.push_str("\\t"),
        '\n' => message.push_str("\\n"),
        '\r' => message.push_str("\\r"),
        _ => push_code(message, control),
    }
}

/// Writes a character of a name.
fn push_written<A: Allocator>(message: &mut String<A>, character: char) -> Result<(), AllocError>
    ensures { OnOk result
        (string_bytes message.new ≡ string_bytes message.old ++ written character) }
{
    if character.is_control() {
        push_escape(message, character)
    } else {
        message.push(character)
    }
}

/// Writes the name of a file. A control character in it is written as an escape: `\t`, `\n`, `\r`, or `\x` and its code
/// in two hexadecimal digits. So a name neither ends a line of the message nor moves the cursor of a terminal. All
/// other characters are written as they are, a backslash too.
pub fn push_escaped<A: Allocator>(message: &mut String<A>, name: &str) -> Result<(), AllocError>
    ensures { OnOk result
        (string_bytes message.new ≡ string_bytes message.old ++ escaped name.now) }
{
    for character in name.chars() {
        push_written(message, character)?;
    }
    Ok(())
}
