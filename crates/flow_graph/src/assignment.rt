//! Simultaneous assignments, compiled once, to be made often.

ghost use Rattle.std.specs.Prelude.{◌≡◌, ◌+◌, ◌≤◌, ◌<◌, ◌^◌, [], IfOk, IfSome};
ghost use Rattle.language.specs.Tree.{value};
ghost use Rattle.trees.specs.Trees.{name_of, names_of, expr_of, rhs_of, rhss_of};
ghost use Rattle.flow_graph.specs.Assignments.{masked, choice_left, after_writes, anys, lasting_bit};
ghost use Rattle.flow_graph.specs.Formulas.{SaysSide};
ghost use Rattle.flow_graph.specs.Joint.{IsFormOf, IsFormOf-prop};
ghost use Rattle.flow_graph.specs.Views.{scope_seen, IsSmall};
ghost use Rattle.resolved.specs.Limits.{most_places};

use crate::joining::form_of;
use crate::joint::Form;
use crate::put::put;
use crate::scope::Scope;
use crate::side::CompiledSide;
use language::Word;
use std::alloc::{AllocError, Allocator};
use trees::{Expr, Name, Rhs};

/// A bit that an assignment writes, and what it gets.
#[derive(Drop)]
pub(crate) struct Write<A: Allocator> {
    /// The bit, alone.
    pub(crate) mask: Word,
    pub(crate) side: CompiledSide<A>,
}

/// The valuation with this value for the bits of a mask.
pub(crate) fn masked(values: Word, mask: Word, value: bool) -> Word
    ensures { result ≡ masked values mask value }
{
    let set = values | mask;
    if value { set } else { set ^ mask }
}

impl<A: Allocator> CompiledSide<A> {
    /// The choice for the right sides after this one.
    fn choice_left(&self, choice: Word) -> Word
        ensures { result ≡ choice_left self.now choice }
    {
        match self {
            CompiledSide::Any => choice / 2,
            CompiledSide::Value(_) => choice,
        }
    }
}

/// The number of the last choice for the `?` of these writes: the choices are numbered from 0.
fn last_choice<A: Allocator>(writes: &[Write<A>]) -> Word
    requires { anys writes.now ≤ most_places }
    ensures { result + 1 ≡ 2 ^ anys writes.now }
{
    let mut last: Word = 0;
    for write in writes {
        last = match &write.side {
            CompiledSide::Any => last * 2 + 1,
            CompiledSide::Value(_) => last,
        };
    }
    last
}

/// The valuation after these writes, from the one before. All right sides are computed over `values`; the values of the
/// `?` are the bits of `choice`, from the lowest, in the order of the writes.
// Apart, so that the steps of the other forms stay short.
#[inline(never)]
pub(crate) fn after_writes<A: Allocator>(
    writes: &[Write<A>],
    values: Word,
    choice: Word,
    before: Word,
) -> Word
    ensures { result ≡ after_writes writes.now values choice before }
{
    let mut next = before;
    let mut left = choice;
    for write in writes {
        next = masked(next, write.mask, write.side.value(values, left));
        left = write.side.choice_left(left);
    }
    next
}

/// A simultaneous assignment, compiled. No bit is written twice.
#[derive(Drop)]
pub struct Assignment<A: Allocator> {
    pub(crate) writes: Vec<Write<A>, A>,
    pub(crate) last: Word,
    pub(crate) form: Form<A>,
    pub(crate) ghost numbered: { last + 1 ≡ 2 ^ anys writes.items },
    pub(crate) ghost formed: { IsFormOf form writes.items } by { IsFormOf-prop form writes.items },
}

impl<A: Allocator> Assignment<A> {
    ghost use Rattle.flow_graph.specs.Flows.{assigned};

    /// The assignment that writes nothing.
    pub(crate) fn nothing(alloc: A) -> Assignment<A>
        ensures { (result.writes.items ≡ []) × (result.last ≡ 0) }
    {
        Assignment {
            writes: Vec::new(alloc),
            last: 0,
            form: Form::Same,
        }
    }

    /// The number of the last next valuation: they are numbered from 0, by the choices of `?`.
    pub(crate) fn last(&self) -> Word
        ensures { result ≡ self.now.last }
    {
        match &self.form {
            Form::Same => 0,
            Form::Joint(_) => 0,
            Form::Chosen(_) => self.last,
            Form::Each => self.last,
        }
    }

    /// The next valuation with this number. All right sides are computed over `values` before a bit is written;
    /// the values of the `?` are the bits of `choice`, from the lowest, in the order of the targets.
    #[inline(always)]
    pub(crate) fn next(&self, values: Word, choice: Word) -> Word
        ensures { result ≡ assigned self.now values choice }
    {
        match &self.form {
            Form::Same => values,
            Form::Joint(table) => table.next(values),
            Form::Chosen(chosen) => chosen.next(values, choice),
            Form::Each => after_writes(self.writes.as_slice(), values, choice, values),
        }
    }
}

impl<'a, N: Allocator> Scope<'a, N> {
    ghost use Rattle.flow_graph.specs.Assigning.{Assigns, WritesOne};

    /// The bit of a target: `None` if it is declared nowhere, or a later target writes it again.
    fn lasting(&self, target: &Name<N>, later: &[Name<N>]) -> Option<u8>
        requires { IsSmall self.now }
        ensures bit { result
            ≡ lasting_bit (scope_seen self.now) (name_of target.now) (names_of later.now) }
        ensures small { IfSome result (λ b. b < most_places) }
    {
        let bit = self.bit(target)?;
        for other in later {
            if self.bit(other) == Some(bit) {
                return None;
            }
        }
        Some(bit)
    }

    /// Compiles what is written to a bit.
    fn write<A: Allocator + Clone>(
        &self,
        alloc: &A,
        bit: u8,
        side: &Rhs<N>,
    ) -> Result<Write<A>, AllocError>
        requires { IsSmall self.now × (bit < most_places) }
        ensures { IfOk result
            (λ w. (w.mask ≡ 2 ^ bit) × SaysSide w.side (scope_seen self.now) (rhs_of side.now)) }
    {
        let side = self.side(alloc, side)?;
        let mask = 1 << bit;
        Ok(Write { mask, side })
    }

    /// Compiles the write of an expression to the bits of a mask.
    fn write_value<A: Allocator + Clone>(
        &self,
        alloc: &A,
        mask: Word,
        e: &Expr<N>,
    ) -> Result<Write<A>, AllocError>
        requires { IsSmall self.now }
        ensures { IfOk result
            (λ w. (w.mask ≡ mask) × SaysSide w.side (scope_seen self.now) (value (expr_of e.now))) }
    {
        let side = CompiledSide::Value(self.formula(alloc, e)?);
        Ok(Write { mask, side })
    }

    /// Compiles the assignment of an expression to the bits of a mask.
    pub(crate) fn assignment_of_value<A: Allocator + Clone>(
        &self,
        alloc: &A,
        mask: Word,
        e: &Expr<N>,
    ) -> Result<Assignment<A>, AllocError>
        requires { IsSmall self.now }
        ensures { IfOk result (λ a. WritesOne a mask (scope_seen self.now) (expr_of e.now)) }
    {
        let mut writes = Vec::new(alloc.clone()?);
        put(self.write_value(alloc, mask, e), &mut writes)?;
        let form = form_of(alloc, writes.as_slice())?;
        Ok(Assignment {
            writes,
            last: 0,
            form,
        })
    }

    /// Compiles a simultaneous assignment. A target that is declared nowhere is not written, nor is one without a right
    /// side.
    pub(crate) fn assignment<A: Allocator + Clone>(
        &self,
        alloc: &A,
        targets: &[Name<N>],
        sides: &[Rhs<N>],
    ) -> Result<Assignment<A>, AllocError>
        requires { IsSmall self.now }
        ensures { IfOk result
            (λ a. Assigns a (scope_seen self.now) (names_of targets.now) (rhss_of sides.now)) }
    {
        let count = targets.len().min(sides.len());
        let mut writes = Vec::new(alloc.clone()?);
        for at in 0..count {
            if let Some(bit) = self.lasting(&targets[at], &targets[at + 1..count]) {
                put(self.write(alloc, bit, &sides[at]), &mut writes)?;
            }
        }
        let last = last_choice(writes.as_slice());
        let form = form_of(alloc, writes.as_slice())?;
        Ok(Assignment { writes, last, form })
    }
}
