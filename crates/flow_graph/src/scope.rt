//! Where the variables of a procedure are in a valuation.

ghost use Rattle.std.specs.Prelude.{◌≡◌, ◌<◌, IfSome};
ghost use Rattle.trees.specs.Trees.{name_of};
ghost use Rattle.flow_graph.specs.Located.{bit_of_name, mask_of};
ghost use Rattle.flow_graph.specs.Views.{scope_seen, IsSmall};
ghost use Rattle.resolved.specs.Limits.{most_places};

use language::Word;
use std::alloc::Allocator;
use trees::{Name, Proc, declares, number_of_name};

/// The names in the scope of the statements of a procedure: no more variables than a valuation has places,
/// and the procedures.
#[derive(Drop)]
pub(crate) struct Scope<'a, N: Allocator> {
    pub(crate) globals: &'a [Name<N>],
    pub(crate) formals: &'a [Name<N>],
    pub(crate) locals: &'a [Name<N>],
    pub(crate) procedures: &'a [Proc<N>],
}

impl<'a, N: Allocator> Scope<'a, N> {
    /// The bit of a variable: `None` if it is declared nowhere.
    pub(crate) fn bit(&self, x: &Name<N>) -> Option<u8>
        requires { IsSmall self.now }
        ensures bit { result ≡ bit_of_name (scope_seen self.now) (name_of x.now) }
        ensures small { IfSome result (λ b. b < most_places) }
    {
        let text = x.text.as_str();
        let globals = self.globals.len();
        if declares(self.formals, text) {
            let at = globals + number_of_name(self.formals, text);
            Some(at as u8)
        } else if declares(self.locals, text) {
            let at = globals + self.formals.len() + number_of_name(self.locals, text);
            Some(at as u8)
        } else {
            let at = number_of_name(self.globals, text);
            if at < globals { Some(at as u8) } else { None }
        }
    }

    /// The bit of a variable, alone: 0 if it is declared nowhere.
    pub(crate) fn mask(&self, x: &Name<N>) -> Word
        requires { IsSmall self.now }
        ensures { result ≡ mask_of (bit_of_name (scope_seen self.now) (name_of x.now)) }
    {
        match self.bit(x) {
            Some(bit) => 1 << bit,
            None => 0,
        }
    }
}
