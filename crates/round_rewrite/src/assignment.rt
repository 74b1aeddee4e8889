//! What assignments are rewritten to.

ghost use Rattle.std.specs.Prelude.{◌≡◌, suc, ◌+◌, ◌<◌, ◌≤◌, ◌^◌, ◌++◌, [], ◌∷◌, IfOk, cond, map};
ghost use Rattle.std.specs.Prelude.{length};
ghost use Rattle.language.specs.Tree.{any, var};
ghost use Rattle.trees.specs.Trees.{name_of, names_of, expr_of, rhs_of, rhss_of};
ghost use Rattle.round_rewrite.specs.Table.{numbers, draws, targets, sides, copy_value};
ghost use Rattle.round_rewrite.specs.Table.{expression_form};
ghost use Rattle.round_rewrite.specs.Table.{each};
ghost use Rattle.round_rewrite.specs.Names.{copy_name, drawn_name};

use crate::lists::{put, put_made};
use crate::names::{clone_name, copy, drawn};
use crate::writer::Writer;
use std::alloc::{AllocError, Allocator};
use trees::{Expr, Name, Rhs};

/// The temporaries up to a number.
#[tactic(auto, using(crate::proofs::PushLemmas::pushed))]
pub(crate) fn temporaries<A: Allocator + Copy>(
    alloc: &A,
    names: Vec<Name<A>, A>,
    number: usize,
) -> Result<Vec<Name<A>, A>, AllocError>
    requires { number < 2 ^ 63 }
    ensures { IfOk result
        (λ v. names_of v.items ≡ names_of names.items ++ map drawn_name (numbers 0 number)) }
{
    let mut list = names;
    for k in 0..number {
        put_made(&mut list, drawn(*alloc, k))?;
    }
    Ok(list)
}

/// As many `?` as are asked for.
#[tactic(auto, using(crate::proofs::PushLemmas::pushed))]
pub(crate) fn any_values<A: Allocator + Copy>(
    alloc: &A,
    number: usize,
) -> Result<Vec<Rhs<A>, A>, AllocError>
    ensures { IfOk result (λ v. rhss_of v.items ≡ each any (numbers 0 number)) }
{
    let mut list = Vec::new(*alloc);
    for _ in 0..number {
        put(&mut list, Rhs::Any)?;
    }
    Ok(list)
}

impl<'a, N: Allocator, A: Allocator + Copy> Writer<'a, N, A> {
    ghost use Rattle.round_rewrite.specs.Writing.{naming_of};

    /// How many temporaries a target and its right side draw: one if a `?` has a global target.
    fn draws_for(&self, x: &Name<N>, r: &Rhs<N>) -> usize
        ensures count { result
            ≡ draws (naming_of self.now).is_shared (name_of x.now ∷ []) (rhs_of r.now ∷ []) }
        ensures few { result ≤ 1 }
    {
        match r {
            Rhs::Any => usize::from(self.is_shared(x)),
            Rhs::Value(_) => 0,
        }
    }

    /// How many `?` with a global target an assignment has: it draws that many temporaries. Each call has a target
    /// less; a checked program of at most 128 places has no more targets than places.
    pub(crate) fn draws(&self, xs: &[Name<N>], rs: &[Rhs<N>]) -> usize
        ensures count { result
            ≡ draws (naming_of self.now).is_shared (names_of xs.now) (rhss_of rs.now) }
        ensures few { result ≤ length xs.now }
    {
        let Some((x, more)) = xs.split_first() else {
            return 0;
        };
        let Some((r, others)) = rs.split_first() else {
            return 0;
        };
        self.draws_for(x, r) + self.draws(more, others)
    }

    /// Appends the copies of a global for each round to targets.
    pub(crate) fn copies(&self, x: &Name<N>, into: &mut Vec<Name<A>, A>) -> Result<(), AllocError>
        ensures { IfOk result
            (λ _. names_of into.new.items
            ≡ names_of into.old.items ++ map (λ k. copy_name k (name_of x.now))
            (numbers 0 (suc self.now.rounds.last))) }
    {
        for round in 0..self.rounds.count() {
            put_made(into, copy(*self.alloc, round, x))?;
        }
        Ok(())
    }

    /// Appends what one target of an assignment becomes to others: all copies of a global, a local itself.
    fn targets_for(&self, x: &Name<N>, into: &mut Vec<Name<A>, A>) -> Result<(), AllocError>
        ensures { IfOk result (λ _. names_of into.new.items
            ≡ names_of into.old.items ++ cond ((naming_of self.now).is_shared (name_of x.now))
            (map (λ k. copy_name k (name_of x.now)) (numbers 0 (suc self.now.rounds.last)))
            (name_of x.now ∷ [])) }
    {
        if self.is_shared(x) {
            self.copies(x, into)
        } else {
            put_made(into, clone_name(*self.alloc, x))
        }
    }

    /// Appends what the copies of a global get, if the global gets a temporary, to right sides.
    #[tactic(auto, using(crate::proofs::PushLemmas::pushed))]
    pub(crate) fn drawn_sides(
        &self,
        number: usize,
        x: &Name<N>,
        into: &mut Vec<Rhs<A>, A>,
    ) -> Result<(), AllocError>
        requires { number < 2 ^ 63 }
        ensures { IfOk result (λ _. rhss_of into.new.items
            ≡ rhss_of into.old.items ++ map
            (copy_value (naming_of self.now) self.now.rounds.last (var (drawn_name number))
            (name_of x.now)) (numbers 0 (suc self.now.rounds.last))) }
    {
        for round in 0..self.rounds.count() {
            let value = drawn(*self.alloc, number)?;
            put_made(into, self.copy_value(Expr::Var(value), x, round))?;
        }
        Ok(())
    }

    /// Appends what the copies of a global get, if the global gets an expression, to right sides.
    #[tactic(auto, using(crate::proofs::PushLemmas::pushed))]
    fn value_sides(
        &self,
        e: &Expr<N>,
        x: &Name<N>,
        into: &mut Vec<Rhs<A>, A>,
    ) -> Result<(), AllocError>
        ensures { IfOk result (λ _. rhss_of into.new.items
            ≡ rhss_of into.old.items ++ map (copy_value (naming_of self.now) self.now.rounds.last
            (expression_form (naming_of self.now) self.now.rounds.last (expr_of e.now))
            (name_of x.now))
            (numbers 0 (suc self.now.rounds.last))) }
    {
        for round in 0..self.rounds.count() {
            let value = self.expression(e)?;
            put_made(into, self.copy_value(value, x, round))?;
        }
        Ok(())
    }

    /// Appends what the targets of one target get to right sides, if the first temporary that is free has this number.
    fn sides_for(
        &self,
        number: usize,
        x: &Name<N>,
        r: &Rhs<N>,
        into: &mut Vec<Rhs<A>, A>,
    ) -> Result<(), AllocError>
        requires { number < 2 ^ 63 }
        ensures { IfOk result (λ _. rhss_of into.new.items
            ≡ rhss_of into.old.items ++ sides (naming_of self.now) self.now.rounds.last number
            (name_of x.now ∷ [])
            (rhs_of r.now ∷ [])) }
    {
        if !self.is_shared(x) {
            return put_made(into, self.side(r));
        }
        match r {
            Rhs::Any => self.drawn_sides(number, x, into),
            Rhs::Value(e) => self.value_sides(e, x, into),
        }
    }

    /// Appends the targets and the right sides of an assignment to others; the first temporary that is free has this
    /// number.
    pub(crate) fn both_sides(
        &self,
        number: usize,
        xs: &[Name<N>],
        rs: &[Rhs<N>],
        left: &mut Vec<Name<A>, A>,
        right: &mut Vec<Rhs<A>, A>,
    ) -> Result<(), AllocError>
        requires { number + length xs.now < 2 ^ 63 }
        ensures targets { IfOk result (λ _. names_of left.new.items
            ≡ names_of left.old.items ++ targets (naming_of self.now) self.now.rounds.last
            (names_of xs.now)
            (rhss_of rs.now)) }
        ensures sides { IfOk result (λ _. rhss_of right.new.items
            ≡ rhss_of right.old.items ++ sides (naming_of self.now) self.now.rounds.last number
            (names_of xs.now)
            (rhss_of rs.now)) }
    {
        let Some((x, more)) = xs.split_first() else {
            return Ok(());
        };
        let Some((r, others)) = rs.split_first() else {
            return Ok(());
        };
        self.targets_for(x, left)?;
        self.sides_for(number, x, r, right)?;
        self.both_sides(number + self.draws_for(x, r), more, others, left, right)
    }
}
