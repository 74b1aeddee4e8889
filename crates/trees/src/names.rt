//! Looking names, procedures and labels up by their texts.

ghost use Rattle.std.specs.Prelude.{◌≡◌, map};
ghost use Rattle.language.specs.Tree.{Procedure};
ghost use Rattle.language.specs.Resolve.{number_of, is_declared, resolve_mark};
ghost use Rattle.language.specs.Rest.{has_label};
ghost use Rattle.trees.specs.Trees.{names_of, procs_of, item_of};

use crate::tree::{Name, Proc, Stmt};
use std::alloc::Allocator;

/// How many of the names come before the first with this text: all of them, if none has it.
pub fn number_of_name<N: Allocator>(names: &[Name<N>], text: &str) -> usize
    ensures { result ≡ number_of text.now (names_of names.now) }
{
    let mut at: usize = 0;
    for name in names {
        if text == name.text.as_str() {
            return at;
        }
        at += 1;
    }
    at
}

/// Whether some of the names has this text.
pub fn declares<N: Allocator>(names: &[Name<N>], text: &str) -> bool
    ensures { result ≡ is_declared text.now (names_of names.now) }
{
    for name in names {
        if text == name.text.as_str() {
            return true;
        }
    }
    false
}

/// How many of the procedures come before the first with this name: all of them, if none has it.
pub fn number_of_procedure<N: Allocator>(procs: &[Proc<N>], text: &str) -> usize
    ensures { result ≡ number_of text.now (map (λ (p : Procedure). p.name) (procs_of procs.now)) }
{
    let mut before: usize = 0;
    for proc in procs {
        if text == proc.name.text.as_str() {
            return before;
        }
        before += 1;
    }
    before
}

impl<N: Allocator> Stmt<N> {
    /// Whether the statement has this label.
    pub fn is_labelled(&self, label: &str) -> bool
        ensures { result ≡ has_label label.now (resolve_mark (item_of self.now).mark) }
    {
        match &self.label {
            Some(name) => label == name.text.as_str(),
            None => false,
        }
    }
}
