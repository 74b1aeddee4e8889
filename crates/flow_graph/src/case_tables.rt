//! Expressions of many bits, as truth tables by the values of a few.

ghost use Rattle.std.specs.Prelude.{◌≡◌, ◌≢◌, ◌<◌, ◌≤◌, ℕ, get_or, length, IfOk, IfSome};
ghost use Rattle.flow_graph.specs.Tables.{AreBits};
ghost use Rattle.flow_graph.specs.Windows.{seen};
ghost use Rattle.flow_graph.specs.Views.{over_bits, IsSmall};
ghost use Rattle.resolved.specs.Limits.{most_places};

use crate::row::KnownBits;
use crate::scope::Scope;
use crate::table::TruthTable;
use crate::windows::Windows;
use language::Word;
use resolved::MOST_PLACES;
use std::alloc::{AllocError, Allocator};
use trees::Expr;

/// How many bits are picked.
const PICKED: usize = 3;

/// How many rows the picked bits have.
const CASES: u64 = 8;

/// How often each bit is read.
type Counts = [u32; MOST_PLACES];

/// An expression as a truth table for each row of three bits, by number of row.
#[derive(Drop)]
pub struct CaseTables<A: Allocator> {
    pub(crate) bits: Windows,
    pub(crate) cases: Vec<TruthTable<A>, A>,
    pub(crate) ghost three: { length (seen bits.items.items) ≡ 3 },
    pub(crate) ghost all: { length cases.items ≡ 8 },
}

impl<A: Allocator> CaseTables<A> {
    ghost use Rattle.flow_graph.specs.Formulas.{case_tables_worth};

    /// The value of the expression for these values.
    // Apart, so that the steps of the other forms stay short.
    #[inline(never)]
    pub(crate) fn value(&self, values: Word) -> bool
        ensures { result ≡ case_tables_worth self.now values }
    {
        let row = self.bits.row(values);
        self.cases[row as usize].value(values)
    }
}

/// The bit that is read most often, which then counts as never read.
fn take_most_read(counts: &mut Counts) -> u8
    ensures place { result < most_places }
    ensures most { (k : ℕ) → k < most_places → get_or counts.old k 0 ≤ get_or counts.old result 0 }
    ensures taken { get_or counts.new result 0 ≡ 0 }
    ensures others { (k : ℕ) → k ≢ result → get_or counts.new k 0 ≡ get_or counts.old k 0 }
{
    let mut most: usize = 0;
    for bit in 1..MOST_PLACES {
        if counts[bit] > counts[most] {
            most = bit;
        }
    }
    counts[most] = 0;
    most as u8
}

impl<'a, N: Allocator> Scope<'a, N> {
    ghost use Rattle.flow_graph.specs.Formulas.{AreTruthTablesOf};

    /// Counts the reads of each bit. Which bits are picked makes no difference to the value of an expression.
    fn count_reads(&self, e: &Expr<N>, counts: &mut Counts)
        requires { IsSmall self.now }
    {
        match e {
            Expr::Const(_) => {}
            Expr::Var(x) => {
                if let Some(bit) = self.bit(x) {
                    counts[bit as usize] = counts[bit as usize].saturating_add(1);
                }
            }
            Expr::Not(a) => self.count_reads(a, counts),
            Expr::Two(_, a, b) => {
                self.count_reads(a, counts);
                self.count_reads(b, counts);
            }
        }
    }

    /// Three bits to pick: those that are read most often. In an expression of a rewritten program they are those of
    /// the round, and once they are known the copies of the other rounds are read no more.
    fn most_read(&self, e: &Expr<N>) -> [u8; PICKED]
        requires { IsSmall self.now }
        ensures { AreBits result }
    {
        let mut counts = [0; MOST_PLACES];
        self.count_reads(e, &mut counts);
        let first = take_most_read(&mut counts);
        let second = take_most_read(&mut counts);
        let third = take_most_read(&mut counts);
        [first, second, third]
    }

    /// An expression as truth tables by the values of three bits; `None` if some has more than ten bits besides.
    pub(crate) fn case_tables<A: Allocator + Clone>(
        &self,
        alloc: &A,
        e: &Expr<N>,
    ) -> Result<Option<CaseTables<A>>, AllocError>
        requires { IsSmall self.now }
        ensures { IfOk result
            (λ made. IfSome made (λ p. AreTruthTablesOf p (over_bits self.now e.now))) }
    {
        let bits = self.most_read(e);
        let mut cases = Vec::new(alloc.clone()?);
        for row in 0..CASES {
            let known = KnownBits { bits: &bits, row };
            match self.table(alloc, e, &known)? {
                Some(table) => cases.push(table)?,
                None => return Ok(None),
            }
        }
        let bits = Windows::new(&bits);
        Ok(Some(CaseTables { bits, cases }))
    }
}
