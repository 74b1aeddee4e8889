//! Lists: one more value; names and right sides, one for each name.

ghost use Rattle.std.specs.Prelude.{◌≡◌, ◌++◌, ◌∷◌, [], ◌<◌, IfOk, IsOkAnd, map};
ghost use Rattle.language.specs.Tree.{const, var, value};
ghost use Rattle.trees.specs.Trees.{names_of, rhss_of};
ghost use Rattle.round_rewrite.specs.Table.{each};
ghost use Rattle.round_rewrite.specs.Names.{numbered_name, copy_name};
ghost use Rattle.round_rewrite.specs.Limits.{most_rounds};

use crate::cores::constant;
use crate::names::{clone_name, copy, numbered};
use std::alloc::{AllocError, Allocator};
use trees::{Expr, Name, Rhs};

/// Appends a value to others.
pub(crate) fn put<T: Drop, A: Allocator>(list: &mut Vec<T, A>, value: T) -> Result<(), AllocError>
    ensures { IfOk result (λ _. list.new.items ≡ list.old.items ++ value ∷ []) }
{
    list.push(value)?;
    Ok(())
}

/// Appends a value to others, if it could be made.
pub(crate) fn put_made<T: Drop, A: Allocator>(
    list: &mut Vec<T, A>,
    value: Result<T, AllocError>,
) -> Result<(), AllocError>
    ensures { IfOk result
        (λ _. IsOkAnd value (λ v. list.new.items ≡ list.old.items ++ v ∷ [])) }
{
    put(list, value?)
}

/// Appends copies of names to others.
pub(crate) fn clone_names<N: Allocator, A: Allocator + Copy>(
    alloc: &A,
    xs: &[Name<N>],
    into: Vec<Name<A>, A>,
) -> Result<Vec<Name<A>, A>, AllocError>
    ensures { IfOk result (λ v. names_of v.items ≡ names_of into.items ++ names_of xs.now) }
{
    let mut list = into;
    for x in xs {
        put_made(&mut list, clone_name(*alloc, x))?;
    }
    Ok(list)
}

/// Appends the names with a mark and a round's number to names.
pub(crate) fn numbered_all<N: Allocator, A: Allocator + Copy>(
    alloc: &A,
    mark: &str,
    round: u8,
    xs: &[Name<N>],
    into: Vec<Name<A>, A>,
) -> Result<Vec<Name<A>, A>, AllocError>
    requires { round < most_rounds }
    ensures { IfOk result (λ v. names_of v.items
        ≡ names_of into.items ++ map (numbered_name mark.now round) (names_of xs.now)) }
{
    let mut list = into;
    for x in xs {
        put_made(&mut list, numbered(*alloc, x, mark, round))?;
    }
    Ok(list)
}

/// A constant for each name.
pub(crate) fn constants<N: Allocator, A: Allocator>(
    alloc: A,
    bit: bool,
    xs: &[Name<N>],
) -> Result<Vec<Rhs<A>, A>, AllocError>
    ensures { IfOk result (λ v. rhss_of v.items ≡ each (value (const bit)) (names_of xs.now)) }
{
    let mut list = Vec::new(alloc);
    for _x in xs {
        put(&mut list, constant(bit))?;
    }
    Ok(list)
}

/// The copies of globals for a round, as right sides.
pub(crate) fn reads<N: Allocator, A: Allocator + Copy>(
    alloc: &A,
    round: u8,
    xs: &[Name<N>],
) -> Result<Vec<Rhs<A>, A>, AllocError>
    requires { round < most_rounds }
    ensures { IfOk result
        (λ v. rhss_of v.items ≡ map (λ y. value (var (copy_name round y))) (names_of xs.now)) }
{
    let mut list = Vec::new(*alloc);
    for x in xs {
        let name = copy(*alloc, round, x)?;
        put(&mut list, Rhs::Value(Expr::Var(name)))?;
    }
    Ok(list)
}
