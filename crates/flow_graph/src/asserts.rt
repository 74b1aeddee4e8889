//! Which asserts fail.

ghost use Rattle.std.specs.Prelude.{◌≡◌, ◌≤◌, ◌∷◌, [], length, IfOk};
ghost use Rattle.language.specs.Sequential.{sequential_of};
ghost use Rattle.resolved.specs.Narrow.{AllNarrow};
ghost use Rattle.resolved.specs.Resolves.{Resolves};
ghost use Rattle.trees.specs.Parts.{head_of};
ghost use Rattle.trees.specs.Trees.{deed_of, tree_of};
ghost use Rattle.flow_graph.specs.Asserted.{asserted_by, may_be_0, SaysAssert, AssertsPut};
ghost use Rattle.flow_graph.specs.Asserted.{AreAssertsOf};
ghost use Rattle.flow_graph.specs.Drawing.{ScopeHasRoom, AreAssertsIn};
ghost use Rattle.flow_graph.specs.Views.{scope_seen, IsSmall};

use crate::put::{push, put};
use crate::scope::Scope;
use crate::side::CompiledSide;
use language::{Point, Word};
use std::alloc::{AllocError, Allocator};
use trees::{Core, Proc, Program, Stmt};

/// The asserts of a procedure: for each point, the exit first, what is asserted there, compiled.
#[derive(Drop)]
pub(crate) struct ProcedureAsserts<A: Allocator> {
    pub(crate) sides: Vec<Option<CompiledSide<A>>, A>,
}

/// The asserts of the procedures of a program, by number.
#[derive(Drop)]
pub struct Asserts<A: Allocator> {
    pub(crate) procedures: Vec<ProcedureAsserts<A>, A>,
}

/// Whether 0 is a value of a compiled right side, if there is one.
#[inline(always)]
fn may_be_0<A: Allocator>(side: &Option<CompiledSide<A>>, values: Word) -> bool
    ensures { result ≡ may_be_0 side.now values }
{
    match side {
        Some(side) => !side.value(values, 0),
        None => false,
    }
}

impl<A: Allocator> Asserts<A> {
    ghost use Rattle.flow_graph.specs.Asserted.{fails_at};

    /// Whether an assert stands at a point of a procedure, of which 0 is a value with a valuation: the run of a thread
    /// fails that has come there. It does not at other points, nor at those that there are not.
    pub fn fails(&self, procedure: u8, point: Point, values: Word) -> bool
        ensures { result ≡ fails_at self.now procedure point values }
    {
        match self.procedures.get(procedure as usize) {
            Some(asserts) => match asserts.sides.get(point) {
                Some(side) => may_be_0(side, values),
                None => false,
            },
            None => false,
        }
    }
}

impl<'a, N: Allocator> Scope<'a, N> {
    /// What a statement asserts, compiled, if it is an assert.
    fn asserted<A: Allocator + Clone>(
        &self,
        alloc: &A,
        core: &Core<N>,
    ) -> Result<Option<CompiledSide<A>>, AllocError>
        requires { IsSmall self.now }
        ensures { IfOk result (λ side. SaysAssert side (scope_seen self.now)
            (asserted_by (head_of (deed_of core.now)))) }
    {
        match core {
            Core::Assert(r) => Ok(Some(self.side(alloc, r)?)),
            _ => Ok(None),
        }
    }

    /// Appends to others, for each statement, what it asserts.
    #[cycle(asserting)]
    fn put_asserts<A: Allocator + Clone>(
        &self,
        alloc: &A,
        stmts: &[Stmt<N>],
        sides: &mut Vec<Option<CompiledSide<A>>, A>,
    ) -> Result<(), AllocError>
        requires { IsSmall self.now }
        ensures { IfOk result
            (λ _. AssertsPut (scope_seen self.now) sides.old.items sides.new.items stmts.now) }
    {
        for stmt in stmts {
            self.put_own_asserts(alloc, stmt, sides)?;
        }
        Ok(())
    }

    /// Appends to others what a statement asserts, and what those inside of it do.
    #[cycle(asserting)]
    fn put_own_asserts<A: Allocator + Clone>(
        &self,
        alloc: &A,
        stmt: &Stmt<N>,
        sides: &mut Vec<Option<CompiledSide<A>>, A>,
    ) -> Result<(), AllocError>
        requires { IsSmall self.now }
        ensures { IfOk result
            (λ _. AssertsPut (scope_seen self.now) sides.old.items sides.new.items
            (stmt.now ∷ [])) }
    {
        put(self.asserted(alloc, &stmt.core), sides)?;
        let (first, second) = stmt.core.inside();
        self.put_asserts(alloc, first, sides)?;
        self.put_asserts(alloc, second, sides)
    }
}

/// The asserts of one procedure of a program.
fn procedure_asserts<N: Allocator, A: Allocator + Clone>(
    alloc: &A,
    program: &Program<N>,
    proc: &Proc<N>,
) -> Result<ProcedureAsserts<A>, AllocError>
    requires { ScopeHasRoom program.now proc.now }
    ensures { IfOk result (λ asserts. AreAssertsIn program.now proc.now asserts) }
{
    let scope = Scope {
        globals: program.globals.as_slice(),
        formals: proc.formals.as_slice(),
        locals: proc.locals.as_slice(),
        procedures: program.procs.as_slice(),
    };
    let mut sides = Vec::new(alloc.clone()?);
    push(None, &mut sides)?;
    scope.put_asserts(alloc, proc.body.as_slice(), &mut sides)?;
    Ok(ProcedureAsserts { sides })
}

/// The asserts of the procedures of a program whose names all resolve, of at most 32 procedures with at most 128 places
/// each. Returns an error if memory is refused.
pub fn find_asserts<N: Allocator, A: Allocator + Clone>(
    alloc: &A,
    program: &Program<N>,
) -> Result<Asserts<A>, AllocError>
    requires resolves { Resolves (tree_of program.now) }
    requires narrow { AllNarrow (tree_of program.now) }
    requires few { length program.now.procs.items ≤ 32 }
    ensures { IfOk result
        (λ asserts. AreAssertsOf (sequential_of (tree_of program.now)) asserts) }
{
    let mut procedures = Vec::new(alloc.clone()?);
    for proc in &program.procs {
        put(procedure_asserts(alloc, program, proc), &mut procedures)?;
    }
    Ok(Asserts { procedures })
}
