//! From statements to flows.

ghost use Rattle.std.specs.Prelude.{◌∷◌, [], IfOk};
ghost use Rattle.flow_graph.specs.Nodes.{goes, stops, tests, assumes};
ghost use Rattle.flow_graph.specs.Points.{BeginAt};
ghost use Rattle.flow_graph.specs.Flows.{Widths, Does};
ghost use Rattle.flow_graph.specs.Lowering.{IsLowerable, side_in, assignment_in, return_in};
ghost use Rattle.flow_graph.specs.Lowering.{DoesIn, DoesJump, DoesCall, DoesFirst, LoweredIn};

use crate::assignment::Assignment;
use crate::call::Call;
use crate::flow::Flow;
use crate::formula::Formula;
use crate::labels::find;
use crate::low_bits::LowBits;
use crate::outputs::Outputs;
use crate::put::put;
use crate::scope::Scope;
use crate::side::CompiledSide;
use crate::sizes::{size, size_of};
use crate::table::TruthTable;
use crate::windows::Windows;
use language::{EXIT, Point, Word};
use resolved::MOST_PLACES;
use std::alloc::{AllocError, Allocator};
use trees::{Core, Expr, Name, Rhs, Stmt, number_of_procedure};

/// The point at which statements begin, the first of which has this number, if the run then continues at `after`.
pub(crate) fn first_point<N: Allocator>(stmts: &[Stmt<N>], first: Point, after: Point) -> Point
    ensures { BeginAt stmts.now first after result }
{
    if stmts.is_empty() { after } else { first }
}

/// A flow on which no run continues.
fn nowhere<A: Allocator>() -> Flow<A>
    ensures { (widths : Widths) → Does result stops widths }
{
    let always_0 = TruthTable {
        inputs: Windows::new(&[]),
        outputs: Outputs::One(0),
    };
    Flow::Assume(CompiledSide::Value(Formula::Table(always_0)), EXIT)
}

/// What the statements of one procedure are lowered with: where it allocates, the names in scope, the procedure's
/// body, and the bit of its result, alone, which is 0 if it gives none.
#[derive(Drop)]
pub(crate) struct Lowering<'a, N: Allocator, A: Allocator + Clone> {
    pub(crate) alloc: &'a A,
    pub(crate) scope: Scope<'a, N>,
    pub(crate) body: &'a [Stmt<N>],
    pub(crate) result: Word,
}

impl<'a, N: Allocator, A: Allocator + Clone> Lowering<'a, N, A> {
    /// The flow that continues at a point.
    fn jump_to(&self, to: Point) -> Result<Flow<A>, AllocError>
        requires { IsLowerable self.now }
        ensures { IfOk result (λ f. DoesIn self.now f (goes to)) }
    {
        Ok(Flow::Assign(Assignment::nothing(self.alloc.clone()?), to))
    }

    /// The flow that continues at the statement with a label.
    fn jump(&self, label: &Name<N>) -> Result<Flow<A>, AllocError>
        requires { IsLowerable self.now }
        ensures { IfOk result (λ f. DoesJump self.now f label.now) }
    {
        match find(label.text.as_str(), self.body, 1) {
            Some(to) => self.jump_to(to),
            None => Ok(nowhere()),
        }
    }

    /// The flow that continues at one of two points, by a right side.
    fn test(&self, r: &Rhs<N>, yes: Point, no: Point) -> Result<Flow<A>, AllocError>
        requires { IsLowerable self.now }
        ensures { IfOk result (λ f. DoesIn self.now f (tests (side_in self.now r.now) yes no)) }
    {
        if yes == no {
            return self.jump_to(yes);
        }
        Ok(Flow::Test(self.scope.side(self.alloc, r)?, yes, no))
    }

    /// The flow that continues if 1 is a value of a right side.
    fn assumption(&self, r: &Rhs<N>, to: Point) -> Result<Flow<A>, AllocError>
        requires { IsLowerable self.now }
        ensures { IfOk result (λ f. DoesIn self.now f (assumes (side_in self.now r.now) to)) }
    {
        Ok(Flow::Assume(self.scope.side(self.alloc, r)?, to))
    }

    /// An assignment.
    fn assignment(&self, xs: &[Name<N>], rs: &[Rhs<N>], to: Point) -> Result<Flow<A>, AllocError>
        requires { IsLowerable self.now }
        ensures { IfOk result (λ f. DoesIn self.now f (assignment_in self.now xs.now rs.now to)) }
    {
        Ok(Flow::Assign(self.scope.assignment(self.alloc, xs, rs)?, to))
    }

    /// A return of a value, which is written to the bit of the result.
    fn returned(&self, e: &Expr<N>) -> Result<Flow<A>, AllocError>
        requires { IsLowerable self.now }
        ensures { IfOk result (λ f. DoesIn self.now f (return_in self.now e.now)) }
    {
        Ok(Flow::Assign(
            self.scope.assignment_of_value(self.alloc, self.result, e)?,
            EXIT,
        ))
    }

    /// A call for the variable with the bit of a mask, or for none. No run continues if there is no such procedure,
    /// or if its valuation would have more than `MOST_PLACES`.
    fn call(
        &self,
        target: Word,
        p: &Name<N>,
        es: &[Expr<N>],
        back: Point,
    ) -> Result<Flow<A>, AllocError>
        requires { IsLowerable self.now }
        ensures { IfOk result (λ f. DoesCall self.now f target p.now es.now back) }
    {
        let callee = number_of_procedure(self.scope.procedures, p.text.as_str());
        if callee >= self.scope.procedures.len() {
            return Ok(nowhere());
        }
        if es.len() > MOST_PLACES - self.scope.globals.len() {
            return Ok(nowhere());
        }
        let mut arguments = Vec::new(self.alloc.clone()?);
        for e in es {
            put(self.scope.formula(self.alloc, e), &mut arguments)?;
        }
        Ok(Flow::Call(Call {
            callee: callee as u8,
            globals: LowBits::new(self.scope.globals.len() as u8),
            arguments,
            target,
            back,
        }))
    }

    /// What the statement with this number leads to, if the run then continues at `after`.
    fn flow(&self, stmt: &Stmt<N>, number: Point, after: Point) -> Result<Flow<A>, AllocError>
        requires { IsLowerable self.now }
        ensures { IfOk result (λ f. DoesFirst self.now f stmt.now number after) }
    {
        match &stmt.core {
            Core::Skip => self.jump_to(after),
            Core::Assign(xs, rs) => self.assignment(xs, rs, after),
            Core::If(r, a, b) => {
                let inside = number.saturating_add(1);
                let yes = first_point(a, inside, after);
                let no = first_point(b, inside.saturating_add(size(a)), after);
                self.test(r, yes, no)
            }
            Core::While(r, a) => {
                self.test(r, first_point(a, number.saturating_add(1), number), after)
            }
            Core::Assert(r) => self.assumption(r, after),
            Core::Assume(r) => self.assumption(r, after),
            Core::Goto(label) => self.jump(label),
            Core::Return => self.jump_to(EXIT),
            Core::Call(p, es) => self.call(0, p, es, after),
            Core::CallTo(x, p, es) => self.call(self.scope.mask(x), p, es, after),
            Core::Give(e) => self.returned(e),
        }
    }

    /// Appends the flows of statements to others, if the run then continues at `after`.
    #[cycle(lowering)]
    pub(crate) fn block(
        &self,
        stmts: &[Stmt<N>],
        after: Point,
        flows: &mut Vec<Flow<A>, A>,
    ) -> Result<(), AllocError>
        requires { IsLowerable self.now }
        ensures { IfOk result
            (λ _. LoweredIn self.now flows.old.items flows.new.items stmts.now after) }
    {
        let mut rest = stmts;
        while let Some((stmt, more)) = rest.split_first() {
            let behind = flows.len().saturating_add(size_of(stmt));
            self.statement(stmt, first_point(more, behind, after), flows)?;
            rest = more;
        }
        Ok(())
    }

    /// Appends the flows of a statement, and of those inside of it, to others.
    #[cycle(lowering)]
    fn statement(
        &self,
        stmt: &Stmt<N>,
        after: Point,
        flows: &mut Vec<Flow<A>, A>,
    ) -> Result<(), AllocError>
        requires { IsLowerable self.now }
        ensures { IfOk result
            (λ _. LoweredIn self.now flows.old.items flows.new.items (stmt.now ∷ []) after) }
    {
        let number = flows.len();
        put(self.flow(stmt, number, after), flows)?;
        match &stmt.core {
            Core::If(_, a, b) => {
                self.block(a, after, flows)?;
                self.block(b, after, flows)
            }
            Core::While(_, a) => self.block(a, number, flows),
            _ => Ok(()),
        }
    }
}
