//! Expressions compiled once, to be evaluated often.

ghost use Rattle.std.specs.Prelude.{◌≡◌, ◌<◌, IfOk, IfSome};
ghost use Rattle.language.specs.Words.{word_bits};
ghost use Rattle.trees.specs.Trees.{expr_of};
ghost use Rattle.flow_graph.specs.Views.{over_bits, scope_seen, IsSmall};
ghost use Rattle.resolved.specs.Limits.{most_places};

use crate::bit::bit;
use crate::case_tables::CaseTables;
use crate::postfix::Postfix;
use crate::row::KnownBits;
use crate::scope::Scope;
use crate::table::TruthTable;
use language::Word;
use std::alloc::{AllocError, Allocator};
use trees::Expr;

/// A bit of a valuation.
#[derive(Drop)]
pub struct Variable {
    pub(crate) bit: u8,
    pub(crate) ghost place: { bit < word_bits },
}

/// An expression over the bits of a valuation: a variable, which is one of them; a truth table if it has at most ten;
/// else a truth table for each row of the three that it reads most often, if ten others are enough for each; else
/// postfix code.
#[derive(Drop)]
pub enum Formula<A: Allocator> {
    Bit(Variable),
    Table(TruthTable<A>),
    Cases(CaseTables<A>),
    Code(Postfix<A>),
}

impl<A: Allocator> Formula<A> {
    ghost use Rattle.flow_graph.specs.Formulas.{says};

    /// The value of the expression for a valuation, which is a number: the globals from bit 0 in the order of their
    /// declaration, then the formals and locals.
    #[inline(always)]
    pub(crate) fn value(&self, values: Word) -> bool
        ensures { result ≡ says self.now values }
    {
        match self {
            Formula::Bit(variable) => bit(values, variable.bit) == 1,
            Formula::Table(table) => table.value(values),
            Formula::Cases(cases) => cases.value(values),
            Formula::Code(code) => code.value(values),
        }
    }
}

impl<'a, N: Allocator> Scope<'a, N> {
    ghost use Rattle.flow_graph.specs.Formulas.{bit_of_variable, FormulaSays};

    /// The bit of an expression that is a declared variable.
    fn variable(&self, e: &Expr<N>) -> Option<u8>
        requires { IsSmall self.now }
        ensures bit { result ≡ bit_of_variable (over_bits self.now e.now) }
        ensures small { IfSome result (λ b. b < most_places) }
    {
        match e {
            Expr::Var(x) => self.bit(x),
            Expr::Const(_) => None,
            Expr::Not(_) => None,
            Expr::Two(_, _, _) => None,
        }
    }

    /// Compiles an expression.
    pub(crate) fn formula<A: Allocator + Clone>(
        &self,
        alloc: &A,
        e: &Expr<N>,
    ) -> Result<Formula<A>, AllocError>
        requires { IsSmall self.now }
        ensures { IfOk result (λ f. FormulaSays f (scope_seen self.now) (expr_of e.now)) }
    {
        if let Some(bit) = self.variable(e) {
            return Ok(Formula::Bit(Variable { bit }));
        }
        if let Some(table) = self.table(alloc, e, &KnownBits { bits: &[], row: 0 })? {
            return Ok(Formula::Table(table));
        }
        match self.case_tables(alloc, e)? {
            Some(cases) => Ok(Formula::Cases(cases)),
            None => Ok(Formula::Code(self.postfix(alloc.clone()?, e)?)),
        }
    }
}
