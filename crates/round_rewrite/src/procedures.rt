//! The procedures of a rewritten program.

ghost use Rattle.std.specs.Prelude.{◌≡◌, ◌≤◌, ◌++◌, ◌∷◌, IfOk, map};
ghost use Rattle.language.specs.Tree.{Procedure};
ghost use Rattle.trees.specs.Trees.{names_of, proc_of, procs_of, tree_of, block_of};
ghost use Rattle.round_rewrite.specs.Names.{main_procedure, rewritten_procedure};
ghost use Rattle.round_rewrite.specs.Writing.{procedure_needs, AreFew};
ghost use Rattle.resolved.specs.Limits.{most_places};

use crate::assignment::temporaries;
use crate::block::Stmts;
use crate::lists::{clone_names, put_made};
use crate::main_procedure::main_body;
use crate::names::{clone_name, fixed};
use crate::rounds::Rounds;
use crate::writer::Writer;
use std::alloc::{AllocError, Allocator};
use trees::{Name, Proc, Program};

/// The locals and the statements of a procedure rewritten.
fn inside<N: Allocator, A: Allocator + Copy>(
    alloc: &A,
    rounds: Rounds,
    proc: &Proc<N>,
) -> Result<(Vec<Name<A>, A>, Stmts<A>), AllocError>
    requires { procedure_needs (proc_of proc.now) ≤ most_places }
    ensures locals { IfOk result
        (λ p. names_of p.0.items ≡ (rewritten_procedure rounds.last (proc_of proc.now)).locals) }
    ensures body { IfOk result
        (λ p. block_of p.1.items ≡ (rewritten_procedure rounds.last (proc_of proc.now)).body) }
{
    let writer = Writer {
        alloc,
        rounds,
        formals: proc.formals.as_slice(),
        locals: proc.locals.as_slice(),
    };
    let kept = clone_names(alloc, &proc.locals, Vec::new(*alloc))?;
    let locals = temporaries(alloc, kept, writer.needs(&proc.body))?;
    let body = writer.rewritten(&proc.body)?;
    Ok((locals, body))
}

/// A procedure rewritten.
fn procedure<N: Allocator, A: Allocator + Copy>(
    alloc: &A,
    rounds: Rounds,
    proc: &Proc<N>,
) -> Result<Proc<A>, AllocError>
    requires { procedure_needs (proc_of proc.now) ≤ most_places }
    ensures { IfOk result (λ p. proc_of p ≡ rewritten_procedure rounds.last (proc_of proc.now)) }
{
    let (locals, body) = inside(alloc, rounds, proc)?;
    let formals = clone_names(alloc, &proc.formals, Vec::new(*alloc))?;
    let name = clone_name(*alloc, &proc.name)?;
    Ok(Proc {
        name,
        formals,
        locals,
        body,
    })
}

/// The first procedure.
fn first<N: Allocator, A: Allocator + Copy>(
    alloc: &A,
    rounds: Rounds,
    program: &Program<N>,
) -> Result<Proc<A>, AllocError>
    ensures { IfOk result (λ p. proc_of p ≡ main_procedure rounds.last (tree_of program.now)) }
{
    let name = fixed(*alloc, "main__")?;
    let formals = Vec::new(*alloc);
    let locals = Vec::new(*alloc);
    let body = main_body(alloc, rounds, &program.globals, &program.threads)?;
    Ok(Proc {
        name,
        formals,
        locals,
        body,
    })
}

/// The procedures, the first one first.
pub(crate) fn procedures<N: Allocator, A: Allocator + Copy>(
    alloc: &A,
    rounds: Rounds,
    program: &Program<N>,
) -> Result<Vec<Proc<A>, A>, AllocError>
    requires { AreFew (procs_of program.now.procs.items) }
    ensures { IfOk result (λ v. procs_of v.items ≡ main_procedure rounds.last (tree_of program.now)
        ∷ map (rewritten_procedure rounds.last) (procs_of program.now.procs.items)) }
{
    let mut list = Vec::new(*alloc);
    put_made(&mut list, first(alloc, rounds, program))?;
    for proc in &program.procs {
        put_made(&mut list, procedure(alloc, rounds, proc))?;
    }
    Ok(list)
}
