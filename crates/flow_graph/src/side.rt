//! Right sides, compiled.

ghost use Rattle.std.specs.Prelude.{◌≡◌, IfOk};
ghost use Rattle.trees.specs.Trees.{rhs_of};
ghost use Rattle.flow_graph.specs.Formulas.{side_value, SaysSide};
ghost use Rattle.flow_graph.specs.Views.{scope_seen, IsSmall};

use crate::formula::Formula;
use crate::scope::Scope;
use language::Word;
use std::alloc::{AllocError, Allocator};
use trees::Rhs;

/// A right side, compiled.
#[derive(Drop)]
pub enum CompiledSide<A: Allocator> {
    /// `?`, which has both values.
    Any,
    /// An expression, which has one.
    Value(Formula<A>),
}

impl<A: Allocator> CompiledSide<A> {
    /// The value of the right side for a valuation: for `?` it is the lowest bit of the choice.
    #[inline(always)]
    pub(crate) fn value(&self, values: Word, choice: Word) -> bool
        ensures { result ≡ side_value self.now values choice }
    {
        match self {
            CompiledSide::Any => choice % 2 == 1,
            CompiledSide::Value(formula) => formula.value(values),
        }
    }
}

impl<'a, N: Allocator> Scope<'a, N> {
    /// Compiles a right side.
    pub(crate) fn side<A: Allocator + Clone>(
        &self,
        alloc: &A,
        r: &Rhs<N>,
    ) -> Result<CompiledSide<A>, AllocError>
        requires { IsSmall self.now }
        ensures { IfOk result (λ side. SaysSide side (scope_seen self.now) (rhs_of r.now)) }
    {
        match r {
            Rhs::Any => Ok(CompiledSide::Any),
            Rhs::Value(e) => Ok(CompiledSide::Value(self.formula(alloc, e)?)),
        }
    }
}
