//! Reading a text.

ghost use Rattle.std.specs.Prelude.{◌≡◌, IfOk, IfErr, MatchResult};
ghost use Rattle.language.specs.Tree.{Tree};
ghost use Rattle.syntax.specs.Text.{Text, ReadFaultStands};
ghost use Rattle.trees.specs.Trees.{tree_of};
ghost use Rattle.syntax.specs.declared.fault.ReadFault.TheVariants.{Memory};

use crate::fault::ReadFault;
use crate::reader::Reader;
use std::alloc::Allocator;
use tokens::{MOST_BYTES, as_ascii, cut, is_too_deep};
use trees::Program;

/// Reads a text: its tree, with the offset of each name and statement. The faults are tested in the order of their
/// numbers, except `Syntax`, which comes before `TooDeep` if the text is not a list of tokens, and after it if the
/// tokens are not a program; `Memory` may come at any point after `TooLong` and `NotAscii`, whose tests take none.
pub fn read<A: Allocator + Clone>(alloc: A, bytes: &[u8]) -> Result<Program<A>, ReadFault>
    // What is read is a text with that tree.
    ensures found { IfOk result (λ program. Text bytes.now (tree_of program)) }
    // Each text is read, with its one tree, unless memory runs out.
    ensures only { (tree : Tree) → Text bytes.now tree
        → MatchResult result (λ program. tree_of program ≡ tree) (λ fault. fault ≡ Memory) }
    // A fault that is returned stands.
    ensures fault { IfErr result (λ fault. ReadFaultStands fault bytes.now) }
{
    if bytes.len() > MOST_BYTES {
        return Err(ReadFault::TooLong);
    }
    let Some(text) = as_ascii(bytes) else {
        return Err(ReadFault::NotAscii);
    };
    let tokens = cut(alloc.clone()?, text)?;
    if is_too_deep(&tokens) {
        return Err(ReadFault::TooDeep);
    }
    let reader = Reader {
        alloc: &alloc,
        end: text.len() as u32,
    };
    reader.program(&tokens)
}
