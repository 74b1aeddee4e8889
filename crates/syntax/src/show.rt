//! What is printed one after the other, and the loops that print it.

ghost use Rattle.std.specs.Prelude.{◌≡◌, ◌++◌, map, IfOk};
ghost use Rattle.std.specs.String.{string_bytes};
ghost use Rattle.tokens.specs.Parts.{text_of};
ghost use Rattle.grammar.specs.Grammar.{joined};
ghost use Rattle.grammar.specs.Printed.{Prints, separated};

use crate::written::Written;
use std::alloc::{AllocError, Allocator};

/// What is printed one after the other, like the names of a declaration.
pub(crate) trait Show: Written {
    /// Prints the value.
    fn print<A: Allocator>(&self, out: &mut String<A>) -> Result<(), AllocError>
        ensures { Prints result out.old out.new (Self.parts (Self.tree self.now)) };
}

/// Prints values, separated by commas.
pub(crate) fn print_list<T: Show, A: Allocator>(
    out: &mut String<A>,
    items: &[T],
) -> Result<(), AllocError>
    ensures { Prints result out.old out.new (separated T.parts (map T.tree items.now)) }
{
    let Some((first, others)) = items.split_first() else {
        return Ok(());
    };
    first.print(out)?;
    for item in others {
        out.push_str(", ")?;
        item.print(out)?;
    }
    Ok(())
}

/// Prints a value between two texts.
pub(crate) fn print_between<T: Show, A: Allocator>(
    out: &mut String<A>,
    before: &str,
    value: &T,
    behind: &str,
) -> Result<(), AllocError>
    ensures { IfOk result (λ _. string_bytes out.new
        ≡ string_bytes out.old
        ++ (before.now ++ (text_of (T.parts (T.tree value.now)) ++ behind.now))) }
{
    out.push_str(before)?;
    value.print(out)?;
    out.push_str(behind)
}

/// Prints values between two texts, separated by commas.
pub(crate) fn print_list_between<T: Show, A: Allocator>(
    out: &mut String<A>,
    before: &str,
    items: &[T],
    behind: &str,
) -> Result<(), AllocError>
    ensures { IfOk result (λ _. string_bytes out.new
        ≡ string_bytes out.old
        ++ (before.now ++ (text_of (separated T.parts (map T.tree items.now)) ++ behind.now))) }
{
    out.push_str(before)?;
    print_list(out, items)?;
    out.push_str(behind)
}

/// Prints values, one after the other.
pub(crate) fn print_all<T: Show, A: Allocator>(
    out: &mut String<A>,
    items: &[T],
) -> Result<(), AllocError>
    ensures { Prints result out.old out.new (joined (map T.parts (map T.tree items.now))) }
{
    for item in items {
        item.print(out)?;
    }
    Ok(())
}
